//! The lines of cells.

ghost use Rattle.std.specs.Prelude.{◌≡◌, ◌+◌, ◌<◌, ◌≤◌, ◌++◌, OnOk, codes, length, filter, flat_map};
ghost use Rattle.std.specs.List.{range_with_len};
ghost use Rattle.std.specs.Fmt.{decimal};
ghost use Rattle.abel_tree.specs.Entries.{entries_of, view_declared};
ghost use Rattle.abel_meaning.specs.Choices.{is_free};
ghost use Rattle.fuse_listing.specs.Listing.{assigned_text, cell_text, chosen_text, enable_text, head_text, is_in_use, kind_text};
ghost use Rattle.fuse_listing.specs.Listing.{line_if_used, pin_text, polarity_text, use_text};

use crate::burned::Burned;
use crate::columns::{complements_output, stores};
use crate::lookups::cell_of;
use crate::pin_names::name_on;
use crate::rows::{is_in_use, put_row, put_row_line};
use abel_tree::{Attributes, Declared};
use bitflags::Flags;
use pld_base::{OutOfMemory, put_decimal};
use pld_device::{Cell, Device, Enable, Loaded};
use std::alloc::Global;

/// How many of some rows are in use. Takes no memory.
pub fn count_in_use<D: Device>(device: &Loaded<D>, fuses: &[bool], first: u16, room: u8) -> usize
    requires { first + room ≤ 65535 }
    ensures { result ≡ length (filter (is_in_use D.table fuses.now) (range_with_len first room)) }
{
    (first..first + u16::from(room))
        .filter(|row| is_in_use::<D>(device, fuses, *row))
        .count()
}

/// Appends what enables a cell.
fn put_enable<D: Device>(
    alloc: Global,
    out: &mut Vec<u8>,
    of: &Burned<D>,
    enable: Enable,
) -> Result<(), OutOfMemory>
    ensures { OnOk result (out.new.items
        ≡ out.old.items ++ enable_text D.table of.now.fuses.now (entries_of of.now.names.now) enable) }
{
    match enable {
        Enable::Row(row) => put_row::<D>(alloc, out, of, row),
        Enable::PinLow(pin) => {
            out.extend_from_slice(b"!pin")?;
            put_decimal(alloc, out, usize::from(pin))
        }
        Enable::Driven => Ok(out.extend_from_slice(b"1")?),
        Enable::Released => Ok(out.extend_from_slice(b"0")?),
    }
}

/// Appends the line of a data row that is in use.
fn put_if_used<D: Device>(
    alloc: Global,
    out: &mut Vec<u8>,
    of: &Burned<D>,
    row: u16,
) -> Result<(), OutOfMemory>
    ensures { OnOk result (out.new.items
        ≡ out.old.items ++ line_if_used D.table of.now.fuses.now (entries_of of.now.names.now) row) }
{
    if is_in_use::<D>(of.device, of.fuses, row) {
        put_row_line::<D>(alloc, out, of, b"  rows ", row)?;
    }
    Ok(())
}

/// Appends the lines of the data rows that are in use.
fn put_rows<D: Device>(
    alloc: Global,
    out: &mut Vec<u8>,
    of: &Burned<D>,
    cell: &Cell,
) -> Result<(), OutOfMemory>
    requires { cell.now.first + cell.now.room ≤ 65535 }
    ensures { OnOk result (out.new.items ≡ out.old.items
        ++ flat_map (line_if_used D.table of.now.fuses.now (entries_of of.now.names.now)) (range_with_len cell.now.first cell.now.room)) }
{
    for offset in 0..cell.room {
        put_if_used::<D>(alloc, out, of, cell.first + u16::from(offset))?;
    }
    Ok(())
}

/// Appends whether a cell is a register.
fn put_kind<D: Device>(
    device: &Loaded<D>,
    out: &mut Vec<u8>,
    fuses: &[bool],
    cell: u8,
) -> Result<(), OutOfMemory>
    requires { cell < length D.table.cells }
    ensures { OnOk result (out.new.items ≡ out.old.items ++ kind_text D.table fuses.now cell) }
{
    let text: &[u8] = if stores::<D>(device, fuses, cell) {
        b" registered"
    } else {
        b" combinational"
    };
    out.extend_from_slice(text)?;
    Ok(())
}

/// Appends how a cell's pin follows its output.
fn put_polarity<D: Device>(
    device: &Loaded<D>,
    out: &mut Vec<u8>,
    fuses: &[bool],
    cell: u8,
) -> Result<(), OutOfMemory>
    requires { cell < length D.table.cells }
    ensures { OnOk result (out.new.items ≡ out.old.items ++ polarity_text D.table fuses.now cell) }
{
    let text: &[u8] = if complements_output::<D>(device, fuses, cell) {
        b" inverted "
    } else {
        b" direct "
    };
    out.extend_from_slice(text)?;
    Ok(())
}

/// Appends a number after a text.
pub(crate) fn put_numbered(
    alloc: Global,
    out: &mut Vec<u8>,
    text: &[u8],
    number: usize,
) -> Result<(), OutOfMemory>
    ensures { OnOk result (out.new.items ≡ out.old.items ++ text.now ++ decimal number) }
{
    out.extend_from_slice(text)?;
    put_decimal(alloc, out, number)
}

/// Appends a cell's pin and its name.
fn put_pin<D: Device>(
    alloc: Global,
    device: &Loaded<D>,
    out: &mut Vec<u8>,
    cell: u8,
    name: &[u8],
) -> Result<(), OutOfMemory>
    requires { cell < length D.table.cells }
    ensures { OnOk result (out.new.items ≡ out.old.items ++ pin_text D.table cell name.now) }
{
    put_numbered(
        alloc,
        out,
        b"pin ",
        usize::from(cell_of::<D>(device, cell).pin),
    )?;
    out.push(b' ')?;
    out.extend_from_slice(name)?;
    Ok(())
}

/// Appends how many data rows of a cell are in use, of those that it has.
fn put_use<D: Device>(
    alloc: Global,
    device: &Loaded<D>,
    out: &mut Vec<u8>,
    fuses: &[bool],
    cell: u8,
) -> Result<(), OutOfMemory>
    requires { cell < length D.table.cells }
    ensures { OnOk result (out.new.items ≡ out.old.items ++ use_text D.table fuses.now cell) }
{
    let found = cell_of::<D>(device, cell);
    put_decimal(
        alloc,
        out,
        count_in_use::<D>(device, fuses, found.first, found.room),
    )?;
    put_numbered(alloc, out, b" of ", usize::from(found.room))
}

/// Whether a name is that of a register whose polarity was free.
fn is_free(declared: &Declared) -> bool
    ensures { result ≡ is_free (view_declared declared.now) }
{
    let said = declared.attributes;
    declared.assigned
        && said.contains(Attributes::REG)
        && !said.contains(Attributes::BUFFER)
        && !said.contains(Attributes::INVERT)
}

/// Appends that the polarity of a free register was chosen, and ends the line.
fn put_chosen(out: &mut Vec<u8>, declared: &Declared) -> Result<(), OutOfMemory>
    ensures { OnOk result (out.new.items ≡ out.old.items ++ chosen_text (view_declared declared.now) ++ codes "\n") }
{
    let text: &[u8] = if is_free(declared) {
        b" chosen\n"
    } else {
        b"\n"
    };
    out.extend_from_slice(text)?;
    Ok(())
}

/// Appends the first line of a cell.
fn put_head<D: Device>(
    alloc: Global,
    out: &mut Vec<u8>,
    of: &Burned<D>,
    cell: u8,
    declared: &Declared,
) -> Result<(), OutOfMemory>
    requires { cell < length D.table.cells }
    ensures { OnOk result (out.new.items ≡ out.old.items ++ head_text D.table of.now.fuses.now cell (view_declared declared.now)) }
{
    put_pin::<D>(alloc, of.device, out, cell, declared.name.bytes())?;
    put_kind::<D>(of.device, out, of.fuses, cell)?;
    put_polarity::<D>(of.device, out, of.fuses, cell)?;
    put_use::<D>(alloc, of.device, out, of.fuses, cell)?;
    put_chosen(out, declared)
}

/// Appends the lines of a cell.
fn put_cell<D: Device>(
    alloc: Global,
    out: &mut Vec<u8>,
    of: &Burned<D>,
    cell: u8,
    declared: &Declared,
) -> Result<(), OutOfMemory>
    requires { cell < length D.table.cells }
    ensures { OnOk result (out.new.items
        ≡ out.old.items ++ cell_text D.table of.now.fuses.now (entries_of of.now.names.now) cell (view_declared declared.now)) }
{
    put_head::<D>(alloc, out, of, cell, declared)?;
    let found = cell_of::<D>(of.device, cell);
    out.extend_from_slice(b"  enable ")?;
    put_enable::<D>(alloc, out, of, found.enable)?;
    out.push(b'\n')?;
    put_rows::<D>(alloc, out, of, &found)
}

/// Appends the lines of a cell whose pin's name is assigned.
pub fn put_if_assigned<D: Device>(
    alloc: Global,
    out: &mut Vec<u8>,
    of: &Burned<D>,
    cell: u8,
) -> Result<(), OutOfMemory>
    requires { cell < length D.table.cells }
    ensures { OnOk result (out.new.items
        ≡ out.old.items ++ assigned_text D.table of.now.fuses.now (entries_of of.now.names.now) cell) }
{
    if let Some(declared) = name_on(of.names, cell_of::<D>(of.device, cell).pin) {
        if declared.assigned {
            put_cell::<D>(alloc, out, of, cell, declared)?;
        }
    }
    Ok(())
}
