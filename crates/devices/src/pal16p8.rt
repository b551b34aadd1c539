//! The PAL16P8: the PAL16L8 with a polarity fuse a cell.

use crate::pal16l8::Pal16L8;
use pld_base::DeviceName;
use pld_device::{Carry, Cell, Chip, Flip, FuseBit, Part};

/// The PAL16P8, as a type without values of its own.
#[derive(Clone, Copy, PartialEq, Eq)]
pub struct Pal16P8;

impl Part for Pal16P8 {
    ghost use Rattle.devices.specs.Prelude.{P16P8};
    ghost use Rattle.devices.specs.DeviceLaws.{table_sound};
    ghost use Rattle.devices.specs.PolarityTables.{pal16p8};

    ghost table = { λ p. pal16p8 };

    ghost sound = { λ p. table_sound P16P8 };

    fn chip(&self) -> Chip {
        Chip {
            name: DeviceName::P16P8,
            pins: 20,
            ground_pin: 10,
            fuses: 2056,
            short: 2056,
            columns: 32,
            rows: 64,
            cells: 8,
            clock: 0,
            reset: None,
            preset: None,
            flip: Flip::AfterRegister,
            power_down: 0,
        }
    }

    fn carries(&self, pair: u16) -> Carry {
        Pal16L8.carries(pair)
    }

    fn cell(&self, index: u8) -> Cell {
        Pal16L8.cell(index)
    }

    fn inverted_at(&self, cell: u8) -> Option<FuseBit> {
        Some(FuseBit {
            fuse: 2048 + u16::from(cell),
            level: false,
        })
    }

    fn registered_at(&self, cell: u8) -> Option<FuseBit> {
        None
    }

    fn row_switch(&self, row: u16) -> Option<u16> {
        None
    }

    fn fixed(&self, index: u16) -> Option<FuseBit> {
        None
    }
}
