//! The rows that a device has with one of two fuse lists alone.
//!
//! The idea: rows are compared within their group, which is a cell's data rows, its enable row, the
//! reset row or the preset row. A row is no list's own if the rows of the other list's group cover
//! it, be it together. So none is left if the groups say the same by other rows.

ghost use Rattle.std.specs.Prelude.{◌≡◌, ◌<◌, ℕ, IfOk, IfSome, length, true};
ghost use Rattle.fuse_compare.specs.Prelude.{enabled_by, row_if_any, EnableInRange};
ghost use Rattle.fuse_compare.specs.OwnRows.{AreOwn, Covers, InArray, MakesCell, MakesSame, SameKind, StoreSame, some_row};

use crate::group::Group;
use crate::group_covers::{group_cover, has_cube};
use crate::masked::MaskedLogic;
use device_logic::{RowMask, cell_of};
use pld_base::OutOfMemory;
use pld_device::{Device, Enable};
use std::alloc::Global;

/// The masks, and those of the group's rows that the first device has alone.
fn with_own<D: Device>(
    alloc: Global,
    own: Vec<RowMask>,
    a: &MaskedLogic<'_, D>,
    b: &MaskedLogic<'_, D>,
    rows: Group,
) -> Result<Vec<RowMask>, OutOfMemory>
    requires same { StoreSame D.table a.now.fuses b.now.fuses }
    requires within { InArray D.table rows }
    ensures { IfOk result (λ more.
        Covers D.table a.now.fuses b.now.fuses rows own.items more.items) }
{
    let mut cover = group_cover(alloc, b, rows)?;
    let mut more = own;
    for row in rows.first..rows.first + u16::from(rows.room) {
        if !has_cube::<D>(a.device(), &mut cover, a.cube(row)) {
            more.push(a.mask(row))?;
        }
    }
    Ok(more)
}

/// The masks, and those of the group's rows that either device has alone.
fn with_rows<D: Device>(
    alloc: Global,
    own: Vec<RowMask>,
    a: &MaskedLogic<'_, D>,
    b: &MaskedLogic<'_, D>,
    rows: Group,
) -> Result<Vec<RowMask>, OutOfMemory>
    requires same { StoreSame D.table a.now.fuses b.now.fuses }
    requires within { InArray D.table rows }
    ensures { IfOk result (λ more. MakesSame (some_row D.table a.now.fuses rows)
        (some_row D.table b.now.fuses rows) own.items more.items) }
{
    let covered = with_own(alloc, own, a, b, rows)?;
    with_own(alloc, covered, b, a, rows)
}

/// The masks, and that of a row, if there is one, in the devices that have it alone.
fn with_row_if_any<D: Device>(
    alloc: Global,
    own: Vec<RowMask>,
    a: &MaskedLogic<'_, D>,
    b: &MaskedLogic<'_, D>,
    row: Option<u16>,
) -> Result<Vec<RowMask>, OutOfMemory>
    requires same { StoreSame D.table a.now.fuses b.now.fuses }
    requires within { IfSome row (λ r. r < D.table.rows) }
    ensures { IfOk result (λ more. MakesSame (λ at. row_if_any D.table a.now.fuses at row)
        (λ at. row_if_any D.table b.now.fuses at row) own.items more.items) }
{
    match row {
        None => Ok(own),
        Some(first) => with_rows(alloc, own, a, b, Group { first, room: 1 }),
    }
}

/// The masks, and those of what enables a cell, if it is a row.
fn with_enable<D: Device>(
    alloc: Global,
    own: Vec<RowMask>,
    a: &MaskedLogic<'_, D>,
    b: &MaskedLogic<'_, D>,
    enable: Enable,
) -> Result<Vec<RowMask>, OutOfMemory>
    requires same { StoreSame D.table a.now.fuses b.now.fuses }
    requires within { EnableInRange D.table enable }
    ensures { IfOk result (λ more. MakesSame (λ at. enabled_by D.table a.now.fuses at enable)
        (λ at. enabled_by D.table b.now.fuses at enable) own.items more.items) }
{
    match enable {
        Enable::PinLow(_) | Enable::Driven | Enable::Released => Ok(own),
        Enable::Row(first) => with_rows(alloc, own, a, b, Group { first, room: 1 }),
    }
}

/// The masks, and those of a cell's rows.
fn with_cell<D: Device>(
    alloc: Global,
    own: Vec<RowMask>,
    a: &MaskedLogic<'_, D>,
    b: &MaskedLogic<'_, D>,
    cell: u8,
) -> Result<Vec<RowMask>, OutOfMemory>
    requires same { StoreSame D.table a.now.fuses b.now.fuses }
    requires within { cell < length D.table.cells }
    ensures { IfOk result (λ more.
        MakesCell D.table a.now.fuses b.now.fuses cell own.items more.items) }
{
    let found = cell_of::<D>(a.device(), cell);
    let rows = Group {
        first: found.first,
        room: found.room,
    };
    let enabled = with_enable(alloc, own, a, b, found.enable)?;
    with_rows(alloc, enabled, a, b, rows)
}

/// The masks of all rows that either device has alone.
pub fn own_rows<D: Device>(
    alloc: Global,
    a: &MaskedLogic<'_, D>,
    b: &MaskedLogic<'_, D>,
) -> Result<Vec<RowMask>, OutOfMemory>
    requires { StoreSame D.table a.now.fuses b.now.fuses }
    ensures { IfOk result (λ own. AreOwn D.table a.now.fuses b.now.fuses own.items) }
{
    let mut own = Vec::new(alloc);
    for cell in 0..a.device().cells() {
        own = with_cell(alloc, own, a, b, cell)?;
    }
    let with_reset = with_row_if_any(alloc, own, a, b, a.device().reset())?;
    with_row_if_any(alloc, with_reset, a, b, a.device().preset())
}

/// Whether each cell is of the same kind and polarity in both.
pub fn has_same_kinds<D: Device>(a: &MaskedLogic<'_, D>, b: &MaskedLogic<'_, D>) -> bool
    ensures { result ≡ true → (c : ℕ) → c < length D.table.cells
        → SameKind D.table a.now.fuses b.now.fuses c }
{
    for cell in 0..a.device().cells() {
        if a.array().stores(cell) != b.array().stores(cell)
            || a.array().is_inverted(cell) != b.array().is_inverted(cell)
        {
            return false;
        }
    }
    true
}
