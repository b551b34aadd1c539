//! When a cell drives its pin.

ghost use Rattle.std.specs.Prelude.{◌≡◌, ◌<◌, length, not};
ghost use Rattle.std.specs.List.{list_any, range_with_len};
ghost use Rattle.device_logic.specs.Array.{EnableInRange};
ghost use Rattle.pld_device.specs.Reads.{row_reads};
ghost use Rattle.page_model.specs.Cells.{drives_by, drives_of, reads_nothing};

use device_logic::{FuseArray, cell_of};
use pld_device::{Device, Enable};

/// When a cell drives its pin: never, always, while a row of the array is true, or while a pin is low.
#[derive(Clone, Copy, PartialEq, Eq)]
pub enum Drives {
    Never,
    Always,
    ByRow(u16),
    WhileLow(u8),
}

/// Whether a row reads no pair.
fn reads_nothing<D: Device>(array: &FuseArray<'_, D>, row: u16) -> bool
    requires { row < D.table.rows }
    ensures { result ≡ reads_nothing D.table array.now row }
{
    for pair in 0..array.device().columns() / 2 {
        if array.row_reads(row, pair) {
            return false;
        }
    }
    true
}

/// When what enables a cell does so.
fn drives_by<D: Device>(array: &FuseArray<'_, D>, enable: Enable) -> Drives
    requires { EnableInRange D.table enable }
    ensures { result ≡ drives_by D.table array.now enable }
{
    match enable {
        Enable::Row(row) => {
            if !array.is_live(row) {
                Drives::Never
            } else if reads_nothing(array, row) {
                Drives::Always
            } else {
                Drives::ByRow(row)
            }
        }
        Enable::PinLow(pin) => Drives::WhileLow(pin),
        Enable::Driven => Drives::Always,
        Enable::Released => Drives::Never,
    }
}

/// When a cell drives its pin. Takes no memory.
pub fn drives_of<D: Device>(array: &FuseArray<'_, D>, cell: u8) -> Drives
    requires { cell < length D.table.cells }
    ensures { result ≡ drives_of D.table array.now cell }
{
    drives_by(array, cell_of::<D>(array.device(), cell).enable)
}
