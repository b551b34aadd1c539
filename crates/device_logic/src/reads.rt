//! Which cells a cell reads while it settles.

ghost use Rattle.std.specs.Prelude.{◌≡◌, ◌+◌, ◌<◌, ◌≤◌, IfSome, length};
ghost use Rattle.device_logic.specs.Prelude.{list_any, range_with_len, enables_never};
ghost use Rattle.device_logic.specs.Array.{EnableInRange};
ghost use Rattle.device_logic.specs.CellReads.{cell_reads, data_reads, enable_reads, rest_reads, row_reads_cell};
ghost use Rattle.device_logic.specs.PairReads.{pair_reads};
ghost use Rattle.device_logic.specs.ResetPaths.{plain_reads, row_reads_if_any};

use crate::array::FuseArray;
use crate::lookups::{carry_of, cell_of};
use pld_device::{Device, Enable};

/// Whether the row reads the pair, and the pair carries what the cell feeds back.
fn pair_reads<D: Device>(array: &FuseArray<'_, D>, row: u16, pair: u16, cell: u8) -> bool
    requires row { row < D.table.rows }
    requires pair { pair < length D.table.pairs }
    requires cell { cell < length D.table.cells }
    ensures { result ≡ pair_reads D.table array.now row cell pair }
{
    array.row_reads(row, pair) && carry_of::<D>(array.device(), pair).is_cell(cell)
}

/// Whether the row reads the cell.
fn row_reads_cell<D: Device>(array: &FuseArray<'_, D>, row: u16, cell: u8) -> bool
    requires row { row < D.table.rows }
    requires cell { cell < length D.table.cells }
    ensures { result ≡ row_reads_cell D.table array.now row cell }
{
    for pair in 0..array.device().columns() / 2 {
        if pair_reads(array, row, pair, cell) {
            return true;
        }
    }
    false
}

/// Whether one of the rows from `first` on reads the cell.
fn rows_read_cell<D: Device>(array: &FuseArray<'_, D>, first: u16, room: u8, cell: u8) -> bool
    requires rows { first + room ≤ D.table.rows }
    requires cell { cell < length D.table.cells }
    ensures { result ≡ list_any (λ row. row_reads_cell D.table array.now row cell)
        (range_with_len first room) }
{
    for row in first..first + u16::from(room) {
        if row_reads_cell(array, row, cell) {
            return true;
        }
    }
    false
}

/// Whether what enables a cell can never do so.
fn enables_never<D: Device>(array: &FuseArray<'_, D>, enable: Enable) -> bool
    requires { EnableInRange D.table enable }
    ensures { result ≡ enables_never D.table array.now enable }
{
    match enable {
        Enable::Row(row) => !array.is_live(row),
        Enable::PinLow(_) | Enable::Driven => false,
        Enable::Released => true,
    }
}

/// Whether what enables a cell reads the other cell.
fn enable_reads<D: Device>(array: &FuseArray<'_, D>, enable: Enable, to: u8) -> bool
    requires range { EnableInRange D.table enable }
    requires to { to < length D.table.cells }
    ensures { result ≡ enable_reads D.table array.now enable to }
{
    match enable {
        Enable::Row(row) => row_reads_cell(array, row, to),
        Enable::PinLow(_) | Enable::Driven | Enable::Released => false,
    }
}

/// Whether the cell's data read the other one while it settles.
fn data_reads<D: Device>(array: &FuseArray<'_, D>, from: u8, to: u8) -> bool
    requires from { from < length D.table.cells }
    requires to { to < length D.table.cells }
    ensures { result ≡ data_reads D.table array.now from to }
{
    let cell = cell_of::<D>(array.device(), from);
    !array.stores(from) && rows_read_cell(array, cell.first, cell.room, to)
}

/// Whether the cell reads the other one while it settles, its level or its Q.
fn rest_reads<D: Device>(array: &FuseArray<'_, D>, from: u8, to: u8) -> bool
    requires from { from < length D.table.cells }
    requires to { to < length D.table.cells }
    ensures { result ≡ rest_reads D.table array.now from to }
{
    let enable = cell_of::<D>(array.device(), from).enable;
    !enables_never(array, enable)
        && (enable_reads(array, enable, to) || data_reads(array, from, to))
}

/// Whether the cell waits for the other one.
pub fn cell_reads<D: Device>(array: &FuseArray<'_, D>, from: u8, to: u8) -> bool
    requires from { from < length D.table.cells }
    requires to { to < length D.table.cells }
    ensures { result ≡ cell_reads D.table array.now from to }
{
    !array.stores(to) && rest_reads(array, from, to)
}

/// Whether the cell, which is no register, reads the other one.
pub fn plain_reads<D: Device>(array: &FuseArray<'_, D>, from: u8, to: u8) -> bool
    requires from { from < length D.table.cells }
    requires to { to < length D.table.cells }
    ensures { result ≡ plain_reads D.table array.now from to }
{
    !array.stores(from) && rest_reads(array, from, to)
}

/// Whether the row, if there is one, reads the cell.
pub fn row_reads_if_any<D: Device>(array: &FuseArray<'_, D>, row: Option<u16>, cell: u8) -> bool
    requires row { IfSome row (λ r. r < D.table.rows) }
    requires cell { cell < length D.table.cells }
    ensures { result ≡ row_reads_if_any D.table array.now row cell }
{
    match row {
        None => false,
        Some(row) => row_reads_cell(array, row, cell),
    }
}
