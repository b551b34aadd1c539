//! What distinguishes the GAL16V8 from the GAL20V8, which have the same three modes.

ghost use Rattle.std.specs.Prelude.{◌≡◌, ◌-◌, ◌<◌, ◌≤◌, Some, length, slice_get};
ghost use Rattle.devices.specs.V8Chips.{numbers_of, v8_of};
ghost use Rattle.devices.specs.V8Tables.{control_of};

use crate::pal16l8::Pal16L8;
use crate::pal20l8::Pal20L8;
use crate::{cells, pal20, v8_pairs};
use pld_base::DeviceName;
use pld_device::{Carry, Chip, Flip, Part};

/// A chip with modes.
#[derive(Clone, Copy, PartialEq, Eq)]
pub enum V8Chip {
    Gal16V8,
    Gal20V8,
}

impl V8Chip {
    /// The pin of a cell: from the top pin downwards.
    pub fn pin_of(self, cell: u8) -> u8
        requires { cell < 8 }
        ensures { result ≡ (v8_of self).top - cell }
    {
        match self {
            V8Chip::Gal16V8 => 19 - cell,
            V8Chip::Gal20V8 => 22 - cell,
        }
    }

    /// The pin that enables registers.
    pub fn enabling(self) -> u8
        ensures { result ≡ (v8_of self).enabling }
    {
        match self {
            V8Chip::Gal16V8 => 11,
            V8Chip::Gal20V8 => 13,
        }
    }

    /// The first control fuse.
    pub fn control(self) -> u16
        ensures is { result ≡ control_of (v8_of self) }
        ensures low { result ≤ 2560 }
    {
        match self {
            V8Chip::Gal16V8 => 2048,
            V8Chip::Gal20V8 => 2560,
        }
    }

    /// Its numbers, with this clock.
    pub fn numbers(self, clock: u8) -> Chip
        ensures { result ≡ numbers_of (v8_of self) clock }
    {
        let (name, pins, ground_pin, fuses, columns) = match self {
            V8Chip::Gal16V8 => (DeviceName::GAL16V8, 20, 10, 2194, 32),
            V8Chip::Gal20V8 => (DeviceName::GAL20V8, 24, 12, 2706, 40),
        };
        Chip {
            name,
            pins,
            ground_pin,
            fuses,
            short: fuses,
            columns,
            rows: 64,
            cells: 8,
            clock,
            reset: None,
            preset: None,
            flip: Flip::BeforeRegister,
            power_down: 0,
        }
    }

    /// What a pair carries in simple mode.
    pub fn simple_pair(self, pair: u16) -> Carry
        requires { pair < length (v8_of self).simple }
        ensures { slice_get (v8_of self).simple pair ≡ Some result }
    {
        match self {
            V8Chip::Gal16V8 => v8_pairs::simple_pair_16(pair),
            V8Chip::Gal20V8 => v8_pairs::simple_pair_20(pair),
        }
    }

    /// What a pair carries in complex mode.
    pub fn complex_pair(self, pair: u16) -> Carry
        requires { pair < length (v8_of self).complex }
        ensures { slice_get (v8_of self).complex pair ≡ Some result }
    {
        match self {
            V8Chip::Gal16V8 => Pal16L8.carries(pair),
            V8Chip::Gal20V8 => Pal20L8.carries(pair),
        }
    }

    /// What a pair carries in registered mode.
    pub fn registered_pair(self, pair: u16) -> Carry
        requires { pair < length (v8_of self).registered }
        ensures { slice_get (v8_of self).registered pair ≡ Some result }
    {
        match self {
            V8Chip::Gal16V8 => cells::registered_pair(pair),
            V8Chip::Gal20V8 => pal20::registered_pair(pair),
        }
    }
}
