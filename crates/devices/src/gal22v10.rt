//! The GAL22V10: ten cells, each combinational or a register, over 132 rows of 44 columns.

ghost use Rattle.std.specs.Prelude.{◌≡◌, ◌<◌};
ghost use Rattle.devices.specs.Gal22V10Table.{either_cell};

use pld_base::DeviceName;
use pld_device::{Carry, Cell, Chip, Enable, Flip, FuseBit, Kinds, Part};

/// The GAL22V10, as a type without values of its own.
#[derive(Clone, Copy, PartialEq, Eq)]
pub struct Gal22V10;

/// A cell: its pin, the row that enables it, and how many data rows follow that one.
pub(crate) fn either(pin: u8, enable: u16, room: u8) -> Cell
    requires { enable < 132 }
    ensures { result ≡ either_cell pin enable room }
{
    Cell {
        pin,
        enable: Enable::Row(enable),
        first: enable + 1,
        room,
        kinds: Kinds::Either,
    }
}

impl Part for Gal22V10 {
    ghost use Rattle.devices.specs.Prelude.{GAL22V10};
    ghost use Rattle.devices.specs.DeviceLaws.{table_sound};
    ghost use Rattle.devices.specs.Gal22V10Table.{gal22v10};

    ghost table = { λ p. gal22v10 };

    ghost sound = { λ p. table_sound GAL22V10 };

    fn chip(&self) -> Chip {
        Chip {
            name: DeviceName::GAL22V10,
            pins: 24,
            ground_pin: 12,
            fuses: 5892,
            short: 5828,
            columns: 44,
            rows: 132,
            cells: 10,
            clock: 1,
            reset: Some(0),
            preset: Some(131),
            flip: Flip::AfterRegister,
            power_down: 0,
        }
    }

    #[rattlefmt::skip]
    fn carries(&self, pair: u16) -> Carry {
        match pair {
            0  => Carry::Pin(1),  1 => Carry::Cell(0),
            2  => Carry::Pin(2),  3 => Carry::Cell(1),
            4  => Carry::Pin(3),  5 => Carry::Cell(2),
            6  => Carry::Pin(4),  7 => Carry::Cell(3),
            8  => Carry::Pin(5),  9 => Carry::Cell(4),
            10 => Carry::Pin(6), 11 => Carry::Cell(5),
            12 => Carry::Pin(7), 13 => Carry::Cell(6),
            14 => Carry::Pin(8), 15 => Carry::Cell(7),
            16 => Carry::Pin(9), 17 => Carry::Cell(8),
            18 => Carry::Pin(10), 19 => Carry::Cell(9),
            20 => Carry::Pin(11),  _ => Carry::Pin(13),
        }
    }

    #[rattlefmt::skip]
    fn cell(&self, index: u8) -> Cell {
        match index {
            0 => either(23,   1,  8),
            1 => either(22,  10, 10),
            2 => either(21,  21, 12),
            3 => either(20,  34, 14),
            4 => either(19,  49, 16),
            5 => either(18,  66, 16),
            6 => either(17,  83, 14),
            7 => either(16,  98, 12),
            8 => either(15, 111, 10),
            _ => either(14, 122,  8),
        }
    }

    fn inverted_at(&self, cell: u8) -> Option<FuseBit> {
        Some(FuseBit {
            fuse: 5808 + 2 * u16::from(cell),
            level: false,
        })
    }

    fn registered_at(&self, cell: u8) -> Option<FuseBit> {
        Some(FuseBit {
            fuse: 5809 + 2 * u16::from(cell),
            level: false,
        })
    }

    fn row_switch(&self, row: u16) -> Option<u16> {
        None
    }

    fn fixed(&self, index: u16) -> Option<FuseBit> {
        None
    }
}
