//! The PAL16R4: four registers on pins 17 to 14 and four combinational cells, over 64 rows of 32 columns.

use crate::cells::{combinational, registered, registered_pair};
use pld_base::DeviceName;
use pld_device::{Carry, Cell, Chip, Flip, FuseBit, Part};

/// The PAL16R4, as a type without values of its own.
#[derive(Clone, Copy, PartialEq, Eq)]
pub struct Pal16R4;

impl Part for Pal16R4 {
    ghost use Rattle.devices.specs.Prelude.{P16R4};
    ghost use Rattle.devices.specs.DeviceLaws.{table_sound};
    ghost use Rattle.devices.specs.Pal16RTables.{pal16r4};

    ghost table = { λ p. pal16r4 };

    ghost sound = { λ p. table_sound P16R4 };

    fn chip(&self) -> Chip {
        Chip {
            name: DeviceName::P16R4,
            pins: 20,
            ground_pin: 10,
            fuses: 2048,
            short: 2048,
            columns: 32,
            rows: 64,
            cells: 8,
            clock: 1,
            reset: None,
            preset: None,
            flip: Flip::Always,
            power_down: 0,
        }
    }

    fn carries(&self, pair: u16) -> Carry {
        registered_pair(pair)
    }

    fn cell(&self, index: u8) -> Cell {
        match index {
            2..=5 => registered(index),
            _ => combinational(index),
        }
    }

    fn inverted_at(&self, cell: u8) -> Option<FuseBit> {
        None
    }

    fn registered_at(&self, cell: u8) -> Option<FuseBit> {
        None
    }

    fn row_switch(&self, row: u16) -> Option<u16> {
        None
    }

    fn fixed(&self, index: u16) -> Option<FuseBit> {
        None
    }
}
