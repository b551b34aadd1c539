//! The GAL16V8 in registered mode with eight registers.

use crate::control::{always, switch, xor};
use crate::pal16r8::Pal16R8;
use pld_base::DeviceName;
use pld_device::{Carry, Cell, Chip, Flip, FuseBit, Part};

/// The GAL16V8 in this mode, as a type without values of its own.
#[derive(Clone, Copy, PartialEq, Eq)]
pub struct Gal16V8R8;

impl Part for Gal16V8R8 {
    ghost use Rattle.devices.specs.Prelude.{GAL16V8R8};
    ghost use Rattle.devices.specs.DeviceLaws.{table_sound};
    ghost use Rattle.devices.specs.Gal16V8Tables.{gal16v8r8};

    ghost table = { λ p. gal16v8r8 };

    ghost sound = { λ p. table_sound GAL16V8R8 };

    fn chip(&self) -> Chip {
        Chip {
            name: DeviceName::GAL16V8R8,
            pins: 20,
            ground_pin: 10,
            fuses: 2194,
            short: 2194,
            columns: 32,
            rows: 64,
            cells: 8,
            clock: 1,
            reset: None,
            preset: None,
            flip: Flip::BeforeRegister,
            power_down: 0,
        }
    }

    fn carries(&self, pair: u16) -> Carry {
        Pal16R8.carries(pair)
    }

    fn cell(&self, index: u8) -> Cell {
        Pal16R8.cell(index)
    }

    fn inverted_at(&self, cell: u8) -> Option<FuseBit> {
        xor(2048, cell)
    }

    fn registered_at(&self, cell: u8) -> Option<FuseBit> {
        None
    }

    fn row_switch(&self, row: u16) -> Option<u16> {
        switch(2048, row)
    }

    /// AC1 of each cell, from pin 19 on, then SYN and AC0.
    #[rattlefmt::skip]
    fn fixed(&self, index: u16) -> Option<FuseBit> {
        match index {
            0 => always(2120, false), 1 => always(2121, false), 2 => always(2122, false),
            3 => always(2123, false), 4 => always(2124, false), 5 => always(2125, false),
            6 => always(2126, false), 7 => always(2127, false),
            8 => always(2192, false), 9 => always(2193, true),
            _ => None,
        }
    }
}
