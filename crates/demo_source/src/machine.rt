//! The ten equations as a logic.

ghost use Rattle.std.specs.Prelude.{◌≡◌};
ghost use Rattle.demo_source.specs.Machine.{machine};

use crate::equations::Equation;
use pld_base::{Point, level_at};
use pld_machine::{Logic, Slot};

pub const REGISTERS: u8 = 10;

/// The pin of register 0; each further one is on the pin below.
pub const FIRST_REGISTER: u8 = 23;

pub const CLOCK: u8 = 1;

/// Registers that take at the clock's edge what their equations say, and are always driven.
#[derive(Drop)]
pub struct Machine<'a> {
    pub equations: &'a [Equation],
}

impl<'a> Logic for Machine<'a> {
    ghost meaning = { λ m. machine m.equations.now };

    fn cells(&self) -> u8 {
        REGISTERS
    }

    fn pin(&self, cell: u8) -> u8 {
        FIRST_REGISTER - cell
    }

    fn stores(&self, _cell: u8) -> bool {
        true
    }

    fn clock(&self) -> u8 {
        CLOCK
    }

    #[tactic(auto, unfolding(crate::specs::Machine::register_slots))]
    fn slots(&self) -> u16 {
        u16::from(REGISTERS)
    }

    #[tactic(auto, unfolding(crate::specs::Machine::register_slots))]
    fn slot(&self, index: u16) -> Slot {
        Slot::Cell(index as u8)
    }

    fn enable(&self, _at: &Point, _cell: u8) -> bool {
        true
    }

    fn level(&self, at: &Point, cell: u8) -> bool {
        level_at(at.q, cell)
    }

    fn node(&self, _at: &Point, _node: u8) -> bool {
        false
    }

    fn reset(&self, _at: &Point, _cell: u8) -> bool {
        false
    }

    fn preset(&self, _at: &Point, _cell: u8) -> bool {
        false
    }

    fn next(&self, at: &Point, cell: u8) -> bool {
        match self.equations.get(usize::from(cell)) {
            Some(equation) => equation.holds(at),
            None => false,
        }
    }
}
