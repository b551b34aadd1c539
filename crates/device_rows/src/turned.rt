//! The small sample device, but its registers take the complement of their data: for the tests.

use pld_base::DeviceName;
use pld_device::{Carry, Cell, Chip, Device, Flip, FuseBit, Loaded, Part, Sample, load};

/// The sample device with its complement before the register.
#[derive(Clone, Copy, PartialEq, Eq)]
pub struct Turned;

impl Device for Turned {
    ghost use Rattle.device_rows.specs.TurnedTable.{turned, turned_sound};

    ghost table = { turned };

    ghost sound = { turned_sound };
}

/// The device.
pub fn turned_device() -> Loaded<Turned> {
    load::<Turned, Turned>(&Turned)
}

impl Part for Turned {
    ghost use Rattle.device_rows.specs.TurnedTable.{turned, turned_sound};

    ghost table = { λ p. turned };

    ghost sound = { λ p. turned_sound };

    fn chip(&self) -> Chip {
        Chip {
            name: DeviceName::GAL22V10,
            pins: 10,
            ground_pin: 5,
            fuses: 60,
            short: 57,
            columns: 8,
            rows: 6,
            cells: 2,
            clock: 1,
            reset: Some(0),
            preset: Some(5),
            flip: Flip::BeforeRegister,
            power_down: 0,
        }
    }

    fn carries(&self, pair: u16) -> Carry {
        Sample.carries(pair)
    }

    fn cell(&self, index: u8) -> Cell {
        Sample.cell(index)
    }

    fn inverted_at(&self, cell: u8) -> Option<FuseBit> {
        Sample.inverted_at(cell)
    }

    fn registered_at(&self, cell: u8) -> Option<FuseBit> {
        Sample.registered_at(cell)
    }

    fn row_switch(&self, row: u16) -> Option<u16> {
        Sample.row_switch(row)
    }

    fn fixed(&self, index: u16) -> Option<FuseBit> {
        Sample.fixed(index)
    }
}
