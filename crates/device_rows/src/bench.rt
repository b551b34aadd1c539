//! A small device of no maker with a register and two gates, on which vectors are run.

use pld_base::DeviceName;
use pld_device::{Carry, Cell, Chip, Device, Enable, Flip, FuseBit, Kinds, Loaded, Part, load};

/// The small device, as a type without values of its own: cell 0, a register, on pin 5, and cells 1 and
/// 2 on pins 6 and 7, each with an enable row and a data row, and columns for pins 2 and 3 and for cell
/// 1. Pin 1 is the clock, and each cell has a fuse that inverts it while it is 0.
#[derive(Clone, Copy, PartialEq, Eq)]
pub struct Bench;

impl Device for Bench {
    ghost use Rattle.device_rows.specs.BenchTable.{bench, bench_sound};

    ghost table = { bench };

    ghost sound = { bench_sound };
}

/// The device.
pub fn bench_device() -> Loaded<Bench> {
    load::<Bench, Bench>(&Bench)
}

impl Part for Bench {
    ghost use Rattle.device_rows.specs.BenchTable.{bench, bench_sound};

    ghost table = { λ p. bench };

    ghost sound = { λ p. bench_sound };

    fn chip(&self) -> Chip {
        Chip {
            name: DeviceName::GAL22V10,
            pins: 10,
            ground_pin: 9,
            fuses: 39,
            short: 39,
            columns: 6,
            rows: 6,
            cells: 3,
            clock: 1,
            reset: None,
            preset: None,
            flip: Flip::AfterRegister,
            power_down: 0,
        }
    }

    fn carries(&self, pair: u16) -> Carry {
        match pair {
            0 => Carry::Pin(2),
            1 => Carry::Pin(3),
            _ => Carry::Cell(1),
        }
    }

    fn cell(&self, index: u8) -> Cell {
        let row = u16::from(index) * 2;
        let kinds = match index {
            0 => Kinds::Registered,
            _ => Kinds::Combinational,
        };
        Cell {
            pin: 5 + index,
            enable: Enable::Row(row),
            first: row + 1,
            room: 1,
            kinds,
        }
    }

    fn inverted_at(&self, cell: u8) -> Option<FuseBit> {
        Some(FuseBit {
            fuse: 36 + u16::from(cell),
            level: false,
        })
    }

    fn registered_at(&self, _cell: u8) -> Option<FuseBit> {
        None
    }

    fn row_switch(&self, _row: u16) -> Option<u16> {
        None
    }

    fn fixed(&self, _index: u16) -> Option<FuseBit> {
        None
    }
}
