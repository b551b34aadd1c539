//! A small combinational device of no maker, on which loading is tried.

use pld_base::DeviceName;
use pld_device::{Carry, Cell, Chip, Device, Enable, Flip, FuseBit, Kinds, Loaded, Part, load};

/// The small device, as a type without values of its own: cells 0, 1 and 2 on pins 9, 8 and 7, each
/// with an enable row and two data rows, and columns for pins 1 and 2 and for each cell.
#[derive(Clone, Copy, PartialEq, Eq)]
pub struct Trio;

impl Device for Trio {
    ghost use Rattle.device_logic.specs.TrioTable.{trio, trio_sound};

    ghost table = { trio };

    ghost sound = { trio_sound };
}

/// The device.
pub fn trio_device() -> Loaded<Trio> {
    load::<Trio, Trio>(&Trio)
}

impl Part for Trio {
    ghost use Rattle.device_logic.specs.TrioTable.{trio, trio_sound};

    ghost table = { λ p. trio };

    ghost sound = { λ p. trio_sound };

    fn chip(&self) -> Chip {
        Chip {
            name: DeviceName::P16L8,
            pins: 10,
            ground_pin: 5,
            fuses: 90,
            short: 90,
            columns: 10,
            rows: 9,
            cells: 3,
            clock: 0,
            reset: None,
            preset: None,
            flip: Flip::Always,
            power_down: 0,
        }
    }

    fn carries(&self, pair: u16) -> Carry {
        match pair {
            0 => Carry::Pin(1),
            1 => Carry::Pin(2),
            2 => Carry::Cell(0),
            3 => Carry::Cell(1),
            _ => Carry::Cell(2),
        }
    }

    fn cell(&self, index: u8) -> Cell {
        let row = u16::from(index) * 3;
        Cell {
            pin: 9 - index,
            enable: Enable::Row(row),
            first: row + 1,
            room: 2,
            kinds: Kinds::Combinational,
        }
    }

    fn inverted_at(&self, _cell: u8) -> Option<FuseBit> {
        None
    }

    fn registered_at(&self, _cell: u8) -> Option<FuseBit> {
        None
    }

    fn row_switch(&self, _row: u16) -> Option<u16> {
        None
    }

    fn fixed(&self, _index: u16) -> Option<FuseBit> {
        None
    }
}
