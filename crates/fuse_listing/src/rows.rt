//! Rows as products of names.

ghost use Rattle.std.specs.Prelude.{◌≡◌, ◌<◌, ◌++◌, if◌then◌else◌, [], OnOk, codes};
ghost use Rattle.std.specs.List.{list_any, range_with_len};
ghost use Rattle.pld_device.specs.Rows.{is_switched_on};
ghost use Rattle.abel_tree.specs.Entries.{entries_of};
ghost use Rattle.fuse_listing.specs.Listing.{column_literal, intact_columns, is_in_use, is_opened, product_text};
ghost use Rattle.fuse_listing.specs.Listing.{row_line, row_text};

use crate::burned::Burned;
use crate::columns::{level_of, put_column};
use pld_base::OutOfMemory;
use pld_device::{Device, Loaded};
use std::alloc::Global;

/// Whether the fuse of a row and a column is opened. Takes no memory.
pub fn is_opened<D: Device>(device: &Loaded<D>, fuses: &[bool], row: u16, column: u16) -> bool
    ensures { result ≡ is_opened D.table fuses.now row column }
{
    level_of(
        fuses,
        usize::from(device.columns()) * usize::from(row) + usize::from(column),
    )
}

/// Whether some fuse of a row is opened.
fn has_opened<D: Device>(device: &Loaded<D>, fuses: &[bool], row: u16) -> bool
    ensures { result ≡ list_any (is_opened D.table fuses.now row) (range_with_len 0 D.table.columns) }
{
    (0..device.columns()).any(|column| is_opened::<D>(device, fuses, row, column))
}

/// Whether a row isn't switched off.
fn is_switched_on<D: Device>(device: &Loaded<D>, fuses: &[bool], row: u16) -> bool
    ensures { result ≡ is_switched_on D.table fuses.now row }
{
    match device.row_switch(row) {
        None => true,
        Some(fuse) => level_of(fuses, usize::from(fuse)),
    }
}

/// Whether a row is in use. Takes no memory.
pub fn is_in_use<D: Device>(device: &Loaded<D>, fuses: &[bool], row: u16) -> bool
    ensures { result ≡ is_in_use D.table fuses.now row }
{
    has_opened::<D>(device, fuses, row) && is_switched_on::<D>(device, fuses, row)
}

/// Appends the literal of a column, after others or not.
fn put_literal<D: Device>(
    alloc: Global,
    out: &mut Vec<u8>,
    of: &Burned<D>,
    column: u16,
    is_first: bool,
) -> Result<(), OutOfMemory>
    requires { column < D.table.columns }
    ensures { OnOk result (out.new.items ≡ out.old.items ++ (if is_first then [] else codes " & ")
        ++ column_literal D.table of.now.fuses.now (entries_of of.now.names.now) column) }
{
    if !is_first {
        out.extend_from_slice(b" & ")?;
    }
    put_column::<D>(alloc, out, of, column)
}

/// Appends the literals of a row's intact columns.
fn put_product<D: Device>(
    alloc: Global,
    out: &mut Vec<u8>,
    of: &Burned<D>,
    row: u16,
) -> Result<(), OutOfMemory>
    ensures { OnOk result (out.new.items ≡ out.old.items
        ++ product_text (column_literal D.table of.now.fuses.now (entries_of of.now.names.now)) (intact_columns D.table of.now.fuses.now row)) }
{
    let mut is_first = true;
    for column in 0..of.device.columns() {
        if !is_opened::<D>(of.device, of.fuses, row, column) {
            put_literal::<D>(alloc, out, of, column, is_first)?;
            is_first = false;
        }
    }
    if is_first {
        out.push(b'1')?;
    }
    Ok(())
}

/// Appends a row as a product, or 0.
pub fn put_row<D: Device>(
    alloc: Global,
    out: &mut Vec<u8>,
    of: &Burned<D>,
    row: u16,
) -> Result<(), OutOfMemory>
    ensures { OnOk result (out.new.items
        ≡ out.old.items ++ row_text D.table of.now.fuses.now (entries_of of.now.names.now) row) }
{
    if is_in_use::<D>(of.device, of.fuses, row) {
        put_product::<D>(alloc, out, of, row)
    } else {
        out.push(b'0')?;
        Ok(())
    }
}

/// Appends a line on a row.
pub fn put_row_line<D: Device>(
    alloc: Global,
    out: &mut Vec<u8>,
    of: &Burned<D>,
    word: &[u8],
    row: u16,
) -> Result<(), OutOfMemory>
    ensures { OnOk result (out.new.items
        ≡ out.old.items ++ row_line D.table of.now.fuses.now (entries_of of.now.names.now) word.now row) }
{
    out.extend_from_slice(word)?;
    put_row::<D>(alloc, out, of, row)?;
    out.push(b'\n')?;
    Ok(())
}
