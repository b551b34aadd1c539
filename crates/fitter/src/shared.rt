//! The cells of a netlist that have a reset or a preset of their own.

ghost use Rattle.std.specs.Prelude.{◌≡◌, length};
ghost use Rattle.fitter.specs.Plans.{cell_wanted};
ghost use Rattle.fitter.specs.Sharing.{own_control};

use bit_expr::{CellWanted, Control, Netlist};
use pld_device::{Device, Loaded};

/// What all registers share.
#[derive(Clone, Copy, Debug, PartialEq, Eq)]
pub enum SharedControl {
    Reset,
    Preset,
}

/// What is asked of a cell; None if it is assigned nothing. Takes no memory.
pub fn cell_wanted(net: &Netlist, cell: u8) -> Option<CellWanted>
    ensures { result ≡ cell_wanted net.now cell }
{
    for wanted in net.cells.as_slice() {
        if wanted.cell == cell {
            return Some(*wanted);
        }
    }
    None
}

/// The cell's own reset or preset.
pub fn own_control(which: SharedControl, wanted: &CellWanted) -> Option<Control>
    ensures { result ≡ own_control which wanted.now }
{
    match which {
        SharedControl::Reset => wanted.reset,
        SharedControl::Preset => wanted.preset,
    }
}

/// How many pairs of columns the device has. Takes no memory.
pub fn pair_count<D: Device>(device: &Loaded<D>) -> u8
    ensures { result ≡ length D.table.pairs }
{
    (device.columns() / 2) as u8
}
