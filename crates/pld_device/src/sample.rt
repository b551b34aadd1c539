//! A small device of no maker, with all that a table may say: what holds of all devices is tried on it.

use crate::carry::Carry;
use crate::cell::Cell;
use crate::chip::Chip;
use crate::device::Device;
use crate::enable::Enable;
use crate::flip::Flip;
use crate::fuse_bit::FuseBit;
use crate::kinds::Kinds;
use crate::part::Part;
use pld_base::DeviceName;

/// A small device of no maker, for tests of code for all devices: it has a reset, a preset and control
/// fuses of every kind.
#[derive(Clone, Copy, PartialEq, Eq)]
pub struct Sample;

/// Code for all devices may be called with this type: a test picks no table.
impl Device for Sample {
    ghost use Rattle.pld_device.specs.SampleTable.{sample, sample_sound};

    ghost table = { sample };

    ghost sound = { sample_sound };
}

impl Part for Sample {
    ghost use Rattle.pld_device.specs.SampleTable.{sample, sample_sound};

    ghost table = { λ p. sample };

    ghost sound = { λ p. sample_sound };

    fn chip(&self) -> Chip {
        Chip {
            name: DeviceName::GAL22V10,
            pins: 10,
            ground_pin: 5,
            fuses: 60,
            short: 57,
            columns: 8,
            rows: 6,
            cells: 2,
            clock: 1,
            reset: Some(0),
            preset: Some(5),
            flip: Flip::AfterRegister,
            power_down: 0,
        }
    }

    #[rattlefmt::skip]
    fn carries(&self, pair: u16) -> Carry {
        match pair {
            0 => Carry::Pin(1), 1 => Carry::Cell(0),
            2 => Carry::Pin(2), _ => Carry::Cell(1),
        }
    }

    fn cell(&self, index: u8) -> Cell {
        match index {
            0 => Cell {
                pin: 9,
                enable: Enable::Row(1),
                first: 2,
                room: 2,
                kinds: Kinds::Either,
            },
            _ => Cell {
                pin: 8,
                enable: Enable::PinLow(4),
                first: 4,
                room: 1,
                kinds: Kinds::Registered,
            },
        }
    }

    fn inverted_at(&self, cell: u8) -> Option<FuseBit> {
        Some(FuseBit {
            fuse: 48 + u16::from(cell),
            level: false,
        })
    }

    fn registered_at(&self, cell: u8) -> Option<FuseBit> {
        match cell {
            0 => Some(FuseBit {
                fuse: 50,
                level: true,
            }),
            _ => None,
        }
    }

    fn row_switch(&self, row: u16) -> Option<u16> {
        if row < 6 { Some(51 + row) } else { None }
    }

    fn fixed(&self, index: u16) -> Option<FuseBit> {
        match index {
            0 => Some(FuseBit {
                fuse: 57,
                level: true,
            }),
            _ => None,
        }
    }
}
