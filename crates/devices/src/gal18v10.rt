//! The GAL18V10: ten cells, each combinational or a register, over 96 rows of 36 columns.

use crate::gal22v10::either;
use pld_base::DeviceName;
use pld_device::{Carry, Cell, Chip, Flip, FuseBit, Part};

/// The GAL18V10, as a type without values of its own.
#[derive(Clone, Copy, PartialEq, Eq)]
pub struct Gal18V10;

impl Part for Gal18V10 {
    ghost use Rattle.devices.specs.Prelude.{GAL18V10};
    ghost use Rattle.devices.specs.DeviceLaws.{table_sound};
    ghost use Rattle.devices.specs.Gal18V10Table.{gal18v10};

    ghost table = { λ p. gal18v10 };

    ghost sound = { λ p. table_sound GAL18V10 };

    fn chip(&self) -> Chip {
        Chip {
            name: DeviceName::GAL18V10,
            pins: 20,
            ground_pin: 10,
            fuses: 3540,
            short: 3540,
            columns: 36,
            rows: 96,
            cells: 10,
            clock: 1,
            reset: Some(0),
            preset: Some(95),
            flip: Flip::AfterRegister,
            power_down: 0,
        }
    }

    #[rattlefmt::skip]
    fn carries(&self, pair: u16) -> Carry {
        match pair {
            0  => Carry::Pin(1),  1 => Carry::Cell(0),
            2  => Carry::Pin(2),  3 => Carry::Cell(1),
            4  => Carry::Pin(3),  5 => Carry::Cell(2),
            6  => Carry::Pin(4),  7 => Carry::Cell(3),
            8  => Carry::Pin(5),  9 => Carry::Cell(4),
            10 => Carry::Pin(6), 11 => Carry::Cell(5),
            12 => Carry::Pin(7), 13 => Carry::Cell(6),
            14 => Carry::Pin(8), 15 => Carry::Cell(7),
            16 => Carry::Cell(8), _ => Carry::Cell(9),
        }
    }

    #[rattlefmt::skip]
    fn cell(&self, index: u8) -> Cell {
        match index {
            0 => either(19,  1,  8),
            1 => either(18, 10,  8),
            2 => either(17, 19,  8),
            3 => either(16, 28,  8),
            4 => either(15, 37, 10),
            5 => either(14, 48, 10),
            6 => either(13, 59,  8),
            7 => either(12, 68,  8),
            8 => either(11, 77,  8),
            _ => either(9, 86,  8),
        }
    }

    fn inverted_at(&self, cell: u8) -> Option<FuseBit> {
        Some(FuseBit {
            fuse: 3456 + 2 * u16::from(cell),
            level: false,
        })
    }

    fn registered_at(&self, cell: u8) -> Option<FuseBit> {
        Some(FuseBit {
            fuse: 3457 + 2 * u16::from(cell),
            level: false,
        })
    }

    fn row_switch(&self, row: u16) -> Option<u16> {
        None
    }

    fn fixed(&self, index: u16) -> Option<FuseBit> {
        None
    }
}
