//! Combinational cells of any room.

ghost use Rattle.std.specs.Prelude.{◌≡◌, ◌<◌};
ghost use Rattle.devices.specs.Pal20L10Table.{enabled_cell};

use pld_device::{Cell, Enable, Kinds};

/// A cell: its pin, its first row, which enables it, and how many data rows follow that one.
pub fn enabled(pin: u8, row: u16, room: u8) -> Cell
    requires { row < 132 }
    ensures { result ≡ enabled_cell pin row room }
{
    Cell {
        pin,
        enable: Enable::Row(row),
        first: row + 1,
        room,
        kinds: Kinds::Combinational,
    }
}
