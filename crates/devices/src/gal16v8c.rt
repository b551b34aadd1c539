//! The GAL16V8 in complex mode: eight combinational cells.

use crate::control::{always, switch, xor};
use crate::pal16l8::Pal16L8;
use pld_base::DeviceName;
use pld_device::{Carry, Cell, Chip, Flip, FuseBit, Part};

/// The GAL16V8 in this mode, as a type without values of its own.
#[derive(Clone, Copy, PartialEq, Eq)]
pub struct Gal16V8C;

impl Part for Gal16V8C {
    ghost use Rattle.devices.specs.Prelude.{GAL16V8C};
    ghost use Rattle.devices.specs.DeviceLaws.{table_sound};
    ghost use Rattle.devices.specs.Gal16V8Tables.{gal16v8c};

    ghost table = { λ p. gal16v8c };

    ghost sound = { λ p. table_sound GAL16V8C };

    fn chip(&self) -> Chip {
        Chip {
            name: DeviceName::GAL16V8C,
            pins: 20,
            ground_pin: 10,
            fuses: 2194,
            short: 2194,
            columns: 32,
            rows: 64,
            cells: 8,
            clock: 0,
            reset: None,
            preset: None,
            flip: Flip::BeforeRegister,
            power_down: 0,
        }
    }

    fn carries(&self, pair: u16) -> Carry {
        Pal16L8.carries(pair)
    }

    fn cell(&self, index: u8) -> Cell {
        Pal16L8.cell(index)
    }

    fn inverted_at(&self, cell: u8) -> Option<FuseBit> {
        xor(2048, cell)
    }

    fn registered_at(&self, cell: u8) -> Option<FuseBit> {
        None
    }

    fn row_switch(&self, row: u16) -> Option<u16> {
        switch(2048, row)
    }

    /// AC1 of each cell, from pin 19 on, then SYN and AC0.
    #[rattlefmt::skip]
    fn fixed(&self, index: u16) -> Option<FuseBit> {
        match index {
            0 => always(2120, true), 1 => always(2121, true), 2 => always(2122, true),
            3 => always(2123, true), 4 => always(2124, true), 5 => always(2125, true),
            6 => always(2126, true), 7 => always(2127, true),
            8 => always(2192, true), 9 => always(2193, true),
            _ => None,
        }
    }
}
