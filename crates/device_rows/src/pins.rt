//! What the PAL16L8 says of its pins.

use crate::asked::{Ask, ask_rows};
use crate::numbers::put_number;
use devices::Pal16L8;
use std::alloc::Global;
use test_rows::{Found, Report, Section};

/// The cell on a pin, or the pair that carries the pin or that cell.
#[derive(Clone, Copy)]
enum OfPin {
    Cell,
    Pair,
}

impl Ask for OfPin {
    fn answer(&mut self, _alloc: Global, input: &str, found: &mut Found) {
        match (input.parse::<u8>(), *self) {
            (Ok(pin), OfPin::Cell) => put_number(Pal16L8::cell_of_pin(pin).map(u16::from), found),
            (Ok(pin), OfPin::Pair) => put_number(Pal16L8::pair_of_pin(pin), found),
            (Err(_), _) => found.text("no pin"),
        }
    }
}

/// Asks the PAL16L8 what a section's name says of its pins.
pub fn ask_pins(alloc: Global, section: &Section<'_>, report: &mut Report<'_>) -> bool {
    let mut asked = if section.name == "cells on the pins of the P16L8" {
        OfPin::Cell
    } else if section.name == "pairs of the pins of the P16L8" {
        OfPin::Pair
    } else {
        return false;
    };
    ask_rows(alloc, section.rows.as_slice(), &mut asked, report);
    true
}
