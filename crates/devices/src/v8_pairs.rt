//! What the columns of the GAL16V8 and the GAL20V8 carry in simple mode.

ghost use Rattle.std.specs.Prelude.{◌≡◌, ◌<◌, Some, length, slice_get};
ghost use Rattle.devices.specs.V8Tables.{simple_pairs_16, simple_pairs_20};

use pld_device::Carry;

/// Those of the GAL16V8: pins 16 and 15 have none.
#[rattlefmt::skip]
pub fn simple_pair_16(pair: u16) -> Carry
    requires { pair < length simple_pairs_16 }
    ensures { slice_get simple_pairs_16 pair ≡ Some result }
{
    match pair {
        0  => Carry::Pin(2),  1 => Carry::Pin(1),
        2  => Carry::Pin(3),  3 => Carry::Cell(0),
        4  => Carry::Pin(4),  5 => Carry::Cell(1),
        6  => Carry::Pin(5),  7 => Carry::Cell(2),
        8  => Carry::Pin(6),  9 => Carry::Cell(5),
        10 => Carry::Pin(7), 11 => Carry::Cell(6),
        12 => Carry::Pin(8), 13 => Carry::Cell(7),
        14 => Carry::Pin(9),  _ => Carry::Pin(11),
    }
}

/// Those of the GAL20V8: pins 19 and 18 have none.
#[rattlefmt::skip]
pub fn simple_pair_20(pair: u16) -> Carry
    requires { pair < length simple_pairs_20 }
    ensures { slice_get simple_pairs_20 pair ≡ Some result }
{
    match pair {
        0  => Carry::Pin(2),  1 => Carry::Pin(1),
        2  => Carry::Pin(3),  3 => Carry::Pin(23),
        4  => Carry::Pin(4),  5 => Carry::Cell(0),
        6  => Carry::Pin(5),  7 => Carry::Cell(1),
        8  => Carry::Pin(6),  9 => Carry::Cell(2),
        10 => Carry::Pin(7), 11 => Carry::Cell(5),
        12 => Carry::Pin(8), 13 => Carry::Cell(6),
        14 => Carry::Pin(9), 15 => Carry::Cell(7),
        16 => Carry::Pin(10),17 => Carry::Pin(14),
        18 => Carry::Pin(11), _ => Carry::Pin(13),
    }
}
