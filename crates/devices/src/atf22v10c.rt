//! The ATF22V10C: the GAL22V10 with a fuse more, which makes of pin 4 an input that powers the chip down.

use crate::control::always;
use crate::gal22v10::Gal22V10;
use pld_base::DeviceName;
use pld_device::{Carry, Cell, Chip, Flip, FuseBit, Part};

/// The ATF22V10C, as a type without values of its own.
#[derive(Clone, Copy, PartialEq, Eq)]
pub struct Atf22V10C;

impl Part for Atf22V10C {
    ghost use Rattle.devices.specs.Prelude.{ATF22V10C};
    ghost use Rattle.devices.specs.DeviceLaws.{table_sound};
    ghost use Rattle.devices.specs.Atf22V10CTable.{atf22v10c};

    ghost table = { λ p. atf22v10c };

    ghost sound = { λ p. table_sound ATF22V10C };

    fn chip(&self) -> Chip {
        Chip {
            name: DeviceName::ATF22V10C,
            pins: 24,
            ground_pin: 12,
            fuses: 5893,
            short: 5892,
            columns: 44,
            rows: 132,
            cells: 10,
            clock: 1,
            reset: Some(0),
            preset: Some(131),
            flip: Flip::AfterRegister,
            power_down: 4,
        }
    }

    fn carries(&self, pair: u16) -> Carry {
        Gal22V10.carries(pair)
    }

    fn cell(&self, index: u8) -> Cell {
        Gal22V10.cell(index)
    }

    fn inverted_at(&self, cell: u8) -> Option<FuseBit> {
        Gal22V10.inverted_at(cell)
    }

    fn registered_at(&self, cell: u8) -> Option<FuseBit> {
        Gal22V10.registered_at(cell)
    }

    fn row_switch(&self, row: u16) -> Option<u16> {
        None
    }

    fn fixed(&self, index: u16) -> Option<FuseBit> {
        if index == 0 {
            always(5892, false)
        } else {
            None
        }
    }
}
