//! The PAL20R8: eight registers, over 64 rows of 40 columns.

use crate::pal20::{cell_of, registered_pair};
use pld_base::DeviceName;
use pld_device::{Carry, Cell, Chip, Flip, FuseBit, Part};

/// The PAL20R8, as a type without values of its own.
#[derive(Clone, Copy, PartialEq, Eq)]
pub struct Pal20R8;

impl Part for Pal20R8 {
    ghost use Rattle.devices.specs.Prelude.{P20R8};
    ghost use Rattle.devices.specs.DeviceLaws.{table_sound};
    ghost use Rattle.devices.specs.Pal20Tables.{pal20r8};

    ghost table = { λ p. pal20r8 };

    ghost sound = { λ p. table_sound P20R8 };

    fn chip(&self) -> Chip {
        Chip {
            name: DeviceName::P20R8,
            pins: 24,
            ground_pin: 12,
            fuses: 2560,
            short: 2560,
            columns: 40,
            rows: 64,
            cells: 8,
            clock: 1,
            reset: None,
            preset: None,
            flip: Flip::Always,
            power_down: 0,
        }
    }

    fn carries(&self, pair: u16) -> Carry {
        registered_pair(pair)
    }

    fn cell(&self, index: u8) -> Cell {
        cell_of(index, true)
    }

    fn inverted_at(&self, cell: u8) -> Option<FuseBit> {
        None
    }

    fn registered_at(&self, cell: u8) -> Option<FuseBit> {
        None
    }

    fn row_switch(&self, row: u16) -> Option<u16> {
        None
    }

    fn fixed(&self, index: u16) -> Option<FuseBit> {
        None
    }
}
