//! The PAL16L8: eight combinational cells over 64 rows of 32 columns.

ghost use Rattle.std.specs.Prelude.{◌≡◌, ◌↔◌, ℕ, IfSome, None};
ghost use Rattle.pld_device.specs.Pins.{IsCellOf, IsPairOf};
ghost use Rattle.devices.specs.Pal16L8Table.{pal16l8};

use crate::cells::combinational;
use pld_base::DeviceName;
use pld_device::{Carry, Cell, Chip, Flip, FuseBit, Part};

/// The PAL16L8, as a type without values of its own.
#[derive(Clone, Copy, PartialEq, Eq)]
pub struct Pal16L8;

impl Pal16L8 {
    /// The pair that carries the pin, or the cell on that pin. Takes no memory.
    pub fn pair_of_pin(pin: u8) -> Option<u16>
        ensures found { IfSome result (λ pair. IsPairOf pal16l8 pin pair) }
        ensures none { result ≡ None ↔ ((pair : ℕ) → IsPairOf pal16l8 pin pair → ⊥) }
    {
        match pin {
            1 => Some(1),
            2 => Some(0),
            3..=9 => Some(u16::from(pin) * 2 - 4),
            11 => Some(15),
            13..=18 => Some(39 - 2 * u16::from(pin)),
            _ => None,
        }
    }

    /// The cell on the pin. Takes no memory.
    pub fn cell_of_pin(pin: u8) -> Option<u8>
        ensures found { IfSome result (λ index. IsCellOf pal16l8 pin index) }
        ensures none { result ≡ None ↔ ((index : ℕ) → IsCellOf pal16l8 pin index → ⊥) }
    {
        match pin {
            12..=19 => Some(19 - pin),
            _ => None,
        }
    }
}

impl Part for Pal16L8 {
    ghost use Rattle.devices.specs.Prelude.{P16L8};
    ghost use Rattle.devices.specs.DeviceLaws.{table_sound};
    ghost use Rattle.devices.specs.Pal16L8Table.{pal16l8};

    ghost table = { λ p. pal16l8 };

    ghost sound = { λ p. table_sound P16L8 };

    fn chip(&self) -> Chip {
        Chip {
            name: DeviceName::P16L8,
            pins: 20,
            ground_pin: 10,
            fuses: 2048,
            short: 2048,
            columns: 32,
            rows: 64,
            cells: 8,
            clock: 0,
            reset: None,
            preset: None,
            flip: Flip::Always,
            power_down: 0,
        }
    }

    #[rattlefmt::skip]
    fn carries(&self, pair: u16) -> Carry {
        match pair {
            0  => Carry::Pin(2),  1 => Carry::Pin(1),
            2  => Carry::Pin(3),  3 => Carry::Cell(1),
            4  => Carry::Pin(4),  5 => Carry::Cell(2),
            6  => Carry::Pin(5),  7 => Carry::Cell(3),
            8  => Carry::Pin(6),  9 => Carry::Cell(4),
            10 => Carry::Pin(7), 11 => Carry::Cell(5),
            12 => Carry::Pin(8), 13 => Carry::Cell(6),
            14 => Carry::Pin(9),  _ => Carry::Pin(11),
        }
    }

    fn cell(&self, index: u8) -> Cell {
        combinational(index)
    }

    fn inverted_at(&self, cell: u8) -> Option<FuseBit> {
        None
    }

    fn registered_at(&self, cell: u8) -> Option<FuseBit> {
        None
    }

    fn row_switch(&self, row: u16) -> Option<u16> {
        None
    }

    fn fixed(&self, index: u16) -> Option<FuseBit> {
        None
    }
}
