//! Literals: a signal or its complement.

ghost use Rattle.std.specs.Prelude.{◌≡◌, ◌++◌, OnOk};
ghost use Rattle.pld_base.specs.Points.{levels_of};
ghost use Rattle.demo_source.specs.Drawing.{next_state, literal_drawn};
ghost use Rattle.demo_source.specs.Machine.{holds, signal_level};
ghost use Rattle.demo_source.specs.SourceText.{literal_text, signal_text};

use crate::draws::Draws;
use pld_base::{OutOfMemory, Point, level_at, put_decimal};
use std::alloc::Global;

/// The inputs are signals 0 to 9, the registers 10 to 19.
pub const INPUTS: u8 = 10;

const SIGNALS: u8 = 20;

/// The pin of the first input.
pub const FIRST_INPUT: u8 = 2;

/// A signal, or its complement.
#[derive(Clone, Copy)]
pub struct Literal {
    pub signal: u8,
    pub negated: bool,
}

/// The level of a signal: an input's is its pin's, a register's its Q. Takes no memory.
fn level_of(at: &Point, signal: u8) -> bool
    ensures { result ≡ signal_level (levels_of at.now) signal }
{
    if signal < INPUTS {
        level_at(at.pins, FIRST_INPUT + signal)
    } else if signal < SIGNALS {
        level_at(at.q, signal - INPUTS)
    } else {
        false
    }
}

/// Appends a signal's name.
fn put_signal(alloc: Global, out: &mut Vec<u8>, signal: u8) -> Result<(), OutOfMemory>
    ensures { OnOk result (out.new.items ≡ out.old.items ++ signal_text signal) }
{
    if signal < INPUTS {
        out.push(b'i')?;
        put_decimal(alloc, out, usize::from(signal))
    } else {
        out.push(b'q')?;
        put_decimal(alloc, out, usize::from(signal - INPUTS))
    }
}

impl Literal {
    /// A signal and whether it is complemented, in this order. Takes no memory.
    pub fn draw(draws: &mut Draws) -> Literal
        ensures literal { result ≡ literal_drawn draws.old.state }
        ensures moved { draws.new.state ≡ next_state (next_state draws.old.state) }
    {
        let signal = draws.draw(u32::from(SIGNALS)) as u8;
        let negated = draws.coin();
        Literal { signal, negated }
    }

    /// Whether it holds at a point. Takes no memory.
    pub fn holds(&self, at: &Point) -> bool
        ensures { result ≡ holds (levels_of at.now) self.now }
    {
        level_of(at, self.signal) != self.negated
    }

    /// Appends it as ABEL writes it.
    pub fn put(&self, alloc: Global, out: &mut Vec<u8>) -> Result<(), OutOfMemory>
        ensures { OnOk result (out.new.items ≡ out.old.items ++ literal_text self.now) }
    {
        if self.negated {
            out.push(b'!')?;
        }
        put_signal(alloc, out, self.signal)
    }
}
