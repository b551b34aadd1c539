//! The cells of the PAL20 devices, and the pairs of those with registers.

ghost use Rattle.std.specs.Prelude.{◌≡◌, ◌<◌, ◌-◌, ◌*◌, Some, slice_get, length};
ghost use Rattle.devices.specs.Pal20Tables.{pal20r_pairs};
ghost use Rattle.devices.specs.V8Cells.{eight_rows};

use crate::v8_cells::eight_rows;
use pld_device::{Carry, Cell};

/// The cell of a number: a register, which pin 13 enables, or combinational, which its first row enables.
pub fn cell_of(index: u8, register: bool) -> Cell
    requires { index < 8 }
    ensures { result ≡ eight_rows 13 (22 - index) (8 * index) register }
{
    eight_rows(13, 22 - index, u16::from(index) * 8, register)
}

/// What a pair of a device with registers carries.
#[rattlefmt::skip]
pub fn registered_pair(pair: u16) -> Carry
    requires { pair < length pal20r_pairs }
    ensures { slice_get pal20r_pairs pair ≡ Some result }
{
    match pair {
        0  => Carry::Pin(2),  1 => Carry::Pin(23),
        2  => Carry::Pin(3),  3 => Carry::Cell(0),
        4  => Carry::Pin(4),  5 => Carry::Cell(1),
        6  => Carry::Pin(5),  7 => Carry::Cell(2),
        8  => Carry::Pin(6),  9 => Carry::Cell(3),
        10 => Carry::Pin(7), 11 => Carry::Cell(4),
        12 => Carry::Pin(8), 13 => Carry::Cell(5),
        14 => Carry::Pin(9), 15 => Carry::Cell(6),
        16 => Carry::Pin(10),17 => Carry::Cell(7),
        18 => Carry::Pin(11), _ => Carry::Pin(14),
    }
}
