//! The AMPAL18P8: eight combinational cells with a polarity fuse each, over 72 rows of 36 columns.

use crate::enabled::enabled;
use pld_base::DeviceName;
use pld_device::{Carry, Cell, Chip, Flip, FuseBit, Part};

/// The AMPAL18P8, as a type without values of its own.
#[derive(Clone, Copy, PartialEq, Eq)]
pub struct Pal18P8;

impl Part for Pal18P8 {
    ghost use Rattle.devices.specs.Prelude.{P18P8};
    ghost use Rattle.devices.specs.DeviceLaws.{table_sound};
    ghost use Rattle.devices.specs.PolarityTables.{pal18p8};

    ghost table = { λ p. pal18p8 };

    ghost sound = { λ p. table_sound P18P8 };

    fn chip(&self) -> Chip {
        Chip {
            name: DeviceName::P18P8,
            pins: 20,
            ground_pin: 10,
            fuses: 2600,
            short: 2600,
            columns: 36,
            rows: 72,
            cells: 8,
            clock: 0,
            reset: None,
            preset: None,
            flip: Flip::AfterRegister,
            power_down: 0,
        }
    }

    #[rattlefmt::skip]
    fn carries(&self, pair: u16) -> Carry {
        match pair {
            0  => Carry::Pin(2),  1 => Carry::Pin(1),
            2  => Carry::Pin(3),  3 => Carry::Cell(1),
            4  => Carry::Pin(4),  5 => Carry::Cell(2),
            6  => Carry::Pin(5),  7 => Carry::Cell(3),
            8  => Carry::Pin(6),  9 => Carry::Cell(4),
            10 => Carry::Pin(7), 11 => Carry::Cell(5),
            12 => Carry::Pin(8), 13 => Carry::Cell(6),
            14 => Carry::Pin(9), 15 => Carry::Pin(11),
            16 => Carry::Cell(0), _ => Carry::Cell(7),
        }
    }

    #[rattlefmt::skip]
    fn cell(&self, index: u8) -> Cell {
        match index {
            0 => enabled(19,  0,  8),
            1 => enabled(18,  9,  8),
            2 => enabled(17, 18,  8),
            3 => enabled(16, 27,  8),
            4 => enabled(15, 36,  8),
            5 => enabled(14, 45,  8),
            6 => enabled(13, 54,  8),
            _ => enabled(12, 63,  8),
        }
    }

    fn inverted_at(&self, cell: u8) -> Option<FuseBit> {
        Some(FuseBit {
            fuse: 2592 + u16::from(cell),
            level: false,
        })
    }

    fn registered_at(&self, cell: u8) -> Option<FuseBit> {
        None
    }

    fn row_switch(&self, row: u16) -> Option<u16> {
        None
    }

    fn fixed(&self, index: u16) -> Option<FuseBit> {
        None
    }
}
