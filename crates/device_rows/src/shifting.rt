//! What the shift register has at rest, after steps, and shows.

use crate::asked::{Ask, ask_rows};
use crate::shift_register::{after, at_rest, shown};
use crate::texts::{bits_of, fields_of, put_bits};
use pld_base::Point;
use std::alloc::Global;
use test_rows::{Found, Report, Section};

/// Appends the pins, the Qs and the nodes that are 1.
fn put_point(at: &Point, found: &mut Found) {
    put_bits(at.pins, found);
    found.text(" | ");
    put_bits(at.q, found);
    found.text(" | ");
    put_bits((at.nodes & 0xFFFF_FFFF) as u32, found);
}

/// The shift register at rest, with the levels and the Qs of a row.
fn rest_of(input: &str) -> Point {
    let [outside, stored, ..] = fields_of(input);
    at_rest(bits_of(outside), bits_of(stored))
}

/// What settles.
#[derive(Clone, Copy)]
struct Rests;

impl Ask for Rests {
    fn answer(&mut self, _alloc: Global, input: &str, found: &mut Found) {
        put_point(&rest_of(input), found);
    }
}

/// A run, at this point.
#[derive(Clone, Copy)]
struct Run {
    at: Point,
}

impl Ask for Run {
    fn answer(&mut self, _alloc: Global, input: &str, found: &mut Found) {
        self.at = after(&self.at, bits_of(input));
        put_point(&self.at, found);
    }
}

/// What is shown at rest.
#[derive(Clone, Copy)]
struct Shows;

impl Ask for Shows {
    fn answer(&mut self, _alloc: Global, input: &str, found: &mut Found) {
        let trace = shown(&rest_of(input));
        put_bits(trace.driven, found);
        found.text(" | ");
        put_bits(trace.level, found);
    }
}

/// Asks the shift register what a section's name says.
pub fn ask_shifting(alloc: Global, section: &Section<'_>, report: &mut Report<'_>) -> bool {
    let rows = section.rows.as_slice();
    if section.name == "a shift register at rest" {
        ask_rows(alloc, rows, &mut Rests, report);
    } else if section.name == "a shift register that runs" {
        let mut run = Run { at: at_rest(0, 0) };
        ask_rows(alloc, rows, &mut run, report);
    } else if section.name == "what a shift register shows" {
        ask_rows(alloc, rows, &mut Shows, report);
    } else {
        return false;
    }
    true
}
