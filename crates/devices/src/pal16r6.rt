//! The PAL16R6: six registers on pins 18 to 13 and two combinational cells, over 64 rows of 32 columns.

use crate::cells::{combinational, registered, registered_pair};
use pld_base::DeviceName;
use pld_device::{Carry, Cell, Chip, Flip, FuseBit, Part};

/// The PAL16R6, as a type without values of its own.
#[derive(Clone, Copy, PartialEq, Eq)]
pub struct Pal16R6;

impl Part for Pal16R6 {
    ghost use Rattle.devices.specs.Prelude.{P16R6};
    ghost use Rattle.devices.specs.DeviceLaws.{table_sound};
    ghost use Rattle.devices.specs.Pal16RTables.{pal16r6};

    ghost table = { λ p. pal16r6 };

    ghost sound = { λ p. table_sound P16R6 };

    fn chip(&self) -> Chip {
        Chip {
            name: DeviceName::P16R6,
            pins: 20,
            ground_pin: 10,
            fuses: 2048,
            short: 2048,
            columns: 32,
            rows: 64,
            cells: 8,
            clock: 1,
            reset: None,
            preset: None,
            flip: Flip::Always,
            power_down: 0,
        }
    }

    fn carries(&self, pair: u16) -> Carry {
        registered_pair(pair)
    }

    fn cell(&self, index: u8) -> Cell {
        match index {
            1..=6 => registered(index),
            _ => combinational(index),
        }
    }

    fn inverted_at(&self, cell: u8) -> Option<FuseBit> {
        None
    }

    fn registered_at(&self, cell: u8) -> Option<FuseBit> {
        None
    }

    fn row_switch(&self, row: u16) -> Option<u16> {
        None
    }

    fn fixed(&self, index: u16) -> Option<FuseBit> {
        None
    }
}
