//! The PAL20R4: four registers on pins 20 to 17 and four combinational cells, over 64 rows of 40 columns.

use crate::pal20::{cell_of, registered_pair};
use pld_base::DeviceName;
use pld_device::{Carry, Cell, Chip, Flip, FuseBit, Part};

/// The PAL20R4, as a type without values of its own.
#[derive(Clone, Copy, PartialEq, Eq)]
pub struct Pal20R4;

impl Part for Pal20R4 {
    ghost use Rattle.devices.specs.Prelude.{P20R4};
    ghost use Rattle.devices.specs.DeviceLaws.{table_sound};
    ghost use Rattle.devices.specs.Pal20Tables.{pal20r4};

    ghost table = { λ p. pal20r4 };

    ghost sound = { λ p. table_sound P20R4 };

    fn chip(&self) -> Chip {
        Chip {
            name: DeviceName::P20R4,
            pins: 24,
            ground_pin: 12,
            fuses: 2560,
            short: 2560,
            columns: 40,
            rows: 64,
            cells: 8,
            clock: 1,
            reset: None,
            preset: None,
            flip: Flip::Always,
            power_down: 0,
        }
    }

    fn carries(&self, pair: u16) -> Carry {
        registered_pair(pair)
    }

    fn cell(&self, index: u8) -> Cell {
        cell_of(index, 2 <= index && index < 6)
    }

    fn inverted_at(&self, cell: u8) -> Option<FuseBit> {
        None
    }

    fn registered_at(&self, cell: u8) -> Option<FuseBit> {
        None
    }

    fn row_switch(&self, row: u16) -> Option<u16> {
        None
    }

    fn fixed(&self, index: u16) -> Option<FuseBit> {
        None
    }
}
