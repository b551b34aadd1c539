//! A shift register is brought to rest and run.

ghost use Rattle.std.specs.Prelude.{◌≡◌, ◌<◌};
ghost use Rattle.pld_base.specs.Bits.{bits, is_on};
ghost use Rattle.pld_machine.specs.Shifter.{shifter};

use pld_base::{Point, Trace, level_at};
use pld_machine::{Logic, Slot, rest, step, trace};

/// The value of a node.
fn value_at(values: u128, node: u8) -> bool
    requires { node < 128 }
    ensures { result ≡ is_on (bits 128 values) node }
{
    values >> node & 1 == 1
}

/// Two registers in a row: pin 12 has the first Q's complement, pin 13 the second Q, pin 14 the second
/// Q while it is enabled. The node has pin 14's level, and is the data of the first register.
struct Shifter;

impl Logic for Shifter {
    ghost meaning = { λ _. shifter };

    fn cells(&self) -> u8 {
        3
    }

    fn pin(&self, cell: u8) -> u8 {
        12 + cell
    }

    fn stores(&self, cell: u8) -> bool {
        cell != 2
    }

    fn clock(&self) -> u8 {
        1
    }

    fn slots(&self) -> u16 {
        4
    }

    fn slot(&self, index: u16) -> Slot {
        match index {
            0 => Slot::Cell(0),
            1 => Slot::Cell(1),
            2 => Slot::Cell(2),
            _ => Slot::Node(0),
        }
    }

    fn enable(&self, at: &Point, cell: u8) -> bool {
        if cell == 2 {
            level_at(at.pins, 5)
        } else {
            true
        }
    }

    fn level(&self, at: &Point, cell: u8) -> bool {
        if cell == 0 {
            !level_at(at.q, 0)
        } else {
            level_at(at.q, 1)
        }
    }

    fn node(&self, at: &Point, _node: u8) -> bool {
        level_at(at.pins, 14)
    }

    fn reset(&self, at: &Point, _cell: u8) -> bool {
        level_at(at.pins, 3)
    }

    fn preset(&self, at: &Point, cell: u8) -> bool {
        if cell == 0 {
            level_at(at.pins, 4)
        } else {
            false
        }
    }

    fn next(&self, at: &Point, cell: u8) -> bool {
        if cell == 0 {
            value_at(at.nodes, 0)
        } else {
            level_at(at.q, 0) && !level_at(at.pins, 1)
        }
    }
}

/// The shift register at rest.
pub fn at_rest(outside: u32, stored: u32) -> Point {
    rest(&Shifter, outside, stored)
}

/// The shift register after a step.
pub fn after(before: &Point, outside: u32) -> Point {
    step(&Shifter, before, outside)
}

/// What the shift register shows.
pub fn shown(at: &Point) -> Trace {
    trace(&Shifter, at)
}
