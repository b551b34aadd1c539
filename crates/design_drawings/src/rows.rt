//! What the rows of an array are for, and what they read.

ghost use Rattle.std.specs.Prelude.{◌≡◌, ◌<◌, IfSome, false, length, true};
ghost use Rattle.design_drawings.specs.CellRows.{IsCellOf, IsRowOf};

use crate::drawn_design::Design;
use fuse_listing::{cell_of, is_opened};
use pld_device::{Device, Enable, Loaded};

/// Whether a row is one of a cell's data rows, or enables it.
fn is_row_of<D: Device>(device: &Loaded<D>, cell: u8, row: u16) -> bool
    requires { cell < length D.table.cells }
    ensures yes { result ≡ true → IsRowOf D.table cell row }
    ensures no { result ≡ false → IsRowOf D.table cell row → ⊥ }
{
    let found = cell_of::<D>(device, cell);
    found.enable == Enable::Row(row)
        || (found.first <= row && row - found.first < u16::from(found.room))
}

/// The cell that a row belongs to, none if all registers share the row. Takes no memory.
pub fn cell_of_row<D: Device>(device: &Loaded<D>, row: u16) -> Option<u8>
    ensures within { IfSome result (λ cell. cell < length D.table.cells) }
    ensures found { IsCellOf D.table row result }
{
    for cell in 0..device.cells() {
        if is_row_of::<D>(device, cell, row) {
            return Some(cell);
        }
    }
    None
}

/// Whether a row enables some cell. Takes no memory.
pub fn is_enable<D: Device>(device: &Loaded<D>, row: u16) -> bool {
    for cell in 0..device.cells() {
        if cell_of::<D>(device, cell).enable == Enable::Row(row) {
            return true;
        }
    }
    false
}

/// Whether each connection of a row is. Takes no memory.
pub fn is_whole<D: Device>(device: &Loaded<D>, design: Design, row: u16) -> bool {
    let levels = design.levels();
    (0..device.columns()).all(|column| !is_opened::<D>(device, levels, row, column))
}
