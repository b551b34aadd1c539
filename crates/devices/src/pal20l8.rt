//! The PAL20L8: eight combinational cells over 64 rows of 40 columns.

use crate::pal20::cell_of;
use pld_base::DeviceName;
use pld_device::{Carry, Cell, Chip, Flip, FuseBit, Part};

/// The PAL20L8, as a type without values of its own.
#[derive(Clone, Copy, PartialEq, Eq)]
pub struct Pal20L8;

impl Part for Pal20L8 {
    ghost use Rattle.devices.specs.Prelude.{P20L8};
    ghost use Rattle.devices.specs.DeviceLaws.{table_sound};
    ghost use Rattle.devices.specs.Pal20Tables.{pal20l8};

    ghost table = { λ p. pal20l8 };

    ghost sound = { λ p. table_sound P20L8 };

    fn chip(&self) -> Chip {
        Chip {
            name: DeviceName::P20L8,
            pins: 24,
            ground_pin: 12,
            fuses: 2560,
            short: 2560,
            columns: 40,
            rows: 64,
            cells: 8,
            clock: 0,
            reset: None,
            preset: None,
            flip: Flip::Always,
            power_down: 0,
        }
    }

    #[rattlefmt::skip]
    fn carries(&self, pair: u16) -> Carry {
        match pair {
            0  => Carry::Pin(2),  1 => Carry::Pin(1),
            2  => Carry::Pin(3),  3 => Carry::Pin(23),
            4  => Carry::Pin(4),  5 => Carry::Cell(1),
            6  => Carry::Pin(5),  7 => Carry::Cell(2),
            8  => Carry::Pin(6),  9 => Carry::Cell(3),
            10 => Carry::Pin(7), 11 => Carry::Cell(4),
            12 => Carry::Pin(8), 13 => Carry::Cell(5),
            14 => Carry::Pin(9), 15 => Carry::Cell(6),
            16 => Carry::Pin(10),17 => Carry::Pin(14),
            18 => Carry::Pin(11), _ => Carry::Pin(13),
        }
    }

    fn cell(&self, index: u8) -> Cell {
        cell_of(index, false)
    }

    fn inverted_at(&self, cell: u8) -> Option<FuseBit> {
        None
    }

    fn registered_at(&self, cell: u8) -> Option<FuseBit> {
        None
    }

    fn row_switch(&self, row: u16) -> Option<u16> {
        None
    }

    fn fixed(&self, index: u16) -> Option<FuseBit> {
        None
    }
}
