//! The cells of the PAL16 devices, and the pairs of those with registers.

ghost use Rattle.std.specs.Prelude.{◌≡◌, ◌<◌, ◌-◌, ◌*◌, Some, slice_get, length};
ghost use Rattle.devices.specs.Pal16Cells.{combinational_cell, registered_cell};
ghost use Rattle.devices.specs.Pal16RTables.{registered_pairs};

use pld_device::{Carry, Cell, Enable, Kinds};

/// The combinational cell of a number: its first row enables it.
pub fn combinational(index: u8) -> Cell
    requires { index < 8 }
    ensures { result ≡ combinational_cell (19 - index) (8 * index) }
{
    let row = u16::from(index) * 8;
    Cell {
        pin: 19 - index,
        enable: Enable::Row(row),
        first: row + 1,
        room: 7,
        kinds: Kinds::Combinational,
    }
}

/// The register of a number: pin 11 enables it.
pub fn registered(index: u8) -> Cell
    requires { index < 8 }
    ensures { result ≡ registered_cell (19 - index) (8 * index) }
{
    Cell {
        pin: 19 - index,
        enable: Enable::PinLow(11),
        first: u16::from(index) * 8,
        room: 8,
        kinds: Kinds::Registered,
    }
}

/// What a pair of a device with registers carries.
#[rattlefmt::skip]
pub fn registered_pair(pair: u16) -> Carry
    requires { pair < length registered_pairs }
    ensures { slice_get registered_pairs pair ≡ Some result }
{
    match pair {
        0  => Carry::Pin(2),  1 => Carry::Cell(0),
        2  => Carry::Pin(3),  3 => Carry::Cell(1),
        4  => Carry::Pin(4),  5 => Carry::Cell(2),
        6  => Carry::Pin(5),  7 => Carry::Cell(3),
        8  => Carry::Pin(6),  9 => Carry::Cell(4),
        10 => Carry::Pin(7), 11 => Carry::Cell(5),
        12 => Carry::Pin(8), 13 => Carry::Cell(6),
        14 => Carry::Pin(9),  _ => Carry::Cell(7),
    }
}
