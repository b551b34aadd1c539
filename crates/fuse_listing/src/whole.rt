//! The whole listing.

ghost use Rattle.std.specs.Prelude.{◌≡◌, ◌++◌, IfOk, OnOk, flat_map, length};
ghost use Rattle.std.specs.List.{range_with_len};
ghost use Rattle.abel_tree.specs.Entries.{entries_of};
ghost use Rattle.fuse_listing.specs.Listing.{assigned_text, common_line, listing_text};

use crate::burned::Burned;
use crate::cells::put_if_assigned;
use crate::given::put_given;
use crate::rows::put_row_line;
use abel_tree::Names;
use pld_base::OutOfMemory;
use pld_device::{Device, Fuses, Loaded};
use std::alloc::Global;

/// Appends the lines of all cells whose pins' names are assigned, in the order of the cells.
fn put_cells<D: Device>(alloc: Global, out: &mut Vec<u8>, of: &Burned<D>) -> Result<(), OutOfMemory>
    ensures { OnOk result (out.new.items ≡ out.old.items
        ++ flat_map (assigned_text D.table of.now.fuses.now (entries_of of.now.names.now)) (range_with_len 0 (length D.table.cells))) }
{
    for cell in 0..of.device.cells() {
        put_if_assigned::<D>(alloc, out, of, cell)?;
    }
    Ok(())
}

/// Appends the line of the row of all registers that there may be.
fn put_common<D: Device>(
    alloc: Global,
    out: &mut Vec<u8>,
    of: &Burned<D>,
    word: &[u8],
    row: Option<u16>,
) -> Result<(), OutOfMemory>
    ensures { OnOk result (out.new.items
        ≡ out.old.items ++ common_line D.table of.now.fuses.now (entries_of of.now.names.now) word.now row) }
{
    match row {
        None => Ok(()),
        Some(row) => put_row_line::<D>(alloc, out, of, word, row),
    }
}

/// The listing of a device's fuses: for each pin that was given to a signal which drives no cell its number and name; for
/// each assigned cell its pin and name, whether it is a register, how its pin follows its output, its data rows in use of
/// those that it has room for, what enables it, and these rows, as products of the names; then the reset and preset of all
/// registers, if the device has such rows. The names are given as they are declared, and as they are placed.
///
/// # Errors
/// Only lack of memory.
pub fn listing<D: Device>(
    alloc: Global,
    device: &Loaded<D>,
    declared: &Names,
    names: &Names,
    fuses: &Fuses,
) -> Result<Vec<u8>, OutOfMemory>
    ensures { IfOk result (λ text. text.items ≡ listing_text D.table fuses.now (entries_of declared.now) (entries_of names.now)) }
{
    let levels = fuses.levels();
    let mut out = Vec::from_slice(alloc, b"device ")?;
    out.extend_from_slice(device.name().text().as_bytes())?;
    out.push(b'\n')?;
    put_given(
        alloc,
        &mut out,
        declared.list.as_slice(),
        names.list.as_slice(),
    )?;
    let of = Burned {
        device,
        fuses: levels,
        names,
    };
    put_cells::<D>(alloc, &mut out, &of)?;
    put_common::<D>(alloc, &mut out, &of, b"reset ", device.reset())?;
    put_common::<D>(alloc, &mut out, &of, b"preset ", device.preset())?;
    Ok(out)
}
