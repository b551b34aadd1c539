//! The PAL20L10: ten combinational cells over 40 rows of 40 columns.

use crate::enabled::enabled;
use pld_base::DeviceName;
use pld_device::{Carry, Cell, Chip, Flip, FuseBit, Part};

/// The PAL20L10, as a type without values of its own.
#[derive(Clone, Copy, PartialEq, Eq)]
pub struct Pal20L10;

impl Part for Pal20L10 {
    ghost use Rattle.devices.specs.Prelude.{P20L10};
    ghost use Rattle.devices.specs.DeviceLaws.{table_sound};
    ghost use Rattle.devices.specs.Pal20L10Table.{pal20l10};

    ghost table = { λ p. pal20l10 };

    ghost sound = { λ p. table_sound P20L10 };

    fn chip(&self) -> Chip {
        Chip {
            name: DeviceName::P20L10,
            pins: 24,
            ground_pin: 12,
            fuses: 1600,
            short: 1600,
            columns: 40,
            rows: 40,
            cells: 10,
            clock: 0,
            reset: None,
            preset: None,
            flip: Flip::Always,
            power_down: 0,
        }
    }

    #[rattlefmt::skip]
    fn carries(&self, pair: u16) -> Carry {
        match pair {
            0  => Carry::Pin(2),  1 => Carry::Pin(1),
            2  => Carry::Pin(3),  3 => Carry::Cell(1),
            4  => Carry::Pin(4),  5 => Carry::Cell(2),
            6  => Carry::Pin(5),  7 => Carry::Cell(3),
            8  => Carry::Pin(6),  9 => Carry::Cell(4),
            10 => Carry::Pin(7), 11 => Carry::Cell(5),
            12 => Carry::Pin(8), 13 => Carry::Cell(6),
            14 => Carry::Pin(9), 15 => Carry::Cell(7),
            16 => Carry::Pin(10),17 => Carry::Cell(8),
            18 => Carry::Pin(11), _ => Carry::Pin(13),
        }
    }

    #[rattlefmt::skip]
    fn cell(&self, index: u8) -> Cell {
        match index {
            0 => enabled(23,  0,  3),
            1 => enabled(22,  4,  3),
            2 => enabled(21,  8,  3),
            3 => enabled(20, 12,  3),
            4 => enabled(19, 16,  3),
            5 => enabled(18, 20,  3),
            6 => enabled(17, 24,  3),
            7 => enabled(16, 28,  3),
            8 => enabled(15, 32,  3),
            _ => enabled(14, 36,  3),
        }
    }

    fn inverted_at(&self, cell: u8) -> Option<FuseBit> {
        None
    }

    fn registered_at(&self, cell: u8) -> Option<FuseBit> {
        None
    }

    fn row_switch(&self, row: u16) -> Option<u16> {
        None
    }

    fn fixed(&self, index: u16) -> Option<FuseBit> {
        None
    }
}
