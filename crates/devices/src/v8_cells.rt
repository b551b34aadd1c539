//! Cells of eight rows.

ghost use Rattle.std.specs.Prelude.{◌≡◌, ◌<◌};
ghost use Rattle.devices.specs.V8Cells.{eight_rows, simple_cell};

use pld_device::{Cell, Enable, Kinds};

/// A cell of simple mode: all eight rows are its data, and it always drives its pin, or never.
pub fn simple_cell(pin: u8, row: u16, driven: bool) -> Cell
    ensures { result ≡ simple_cell pin row driven }
{
    Cell {
        pin,
        enable: if driven {
            Enable::Driven
        } else {
            Enable::Released
        },
        first: row,
        room: 8,
        kinds: Kinds::Combinational,
    }
}

/// A cell of the others: a register, which the enabling pin enables, or combinational, which its first row enables.
pub fn eight_rows(enabling: u8, pin: u8, row: u16, register: bool) -> Cell
    requires { row < 64 }
    ensures { result ≡ eight_rows enabling pin row register }
{
    if register {
        return Cell {
            pin,
            enable: Enable::PinLow(enabling),
            first: row,
            room: 8,
            kinds: Kinds::Registered,
        };
    }
    Cell {
        pin,
        enable: Enable::Row(row),
        first: row + 1,
        room: 7,
        kinds: Kinds::Combinational,
    }
}
