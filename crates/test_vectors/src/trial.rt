//! A vector that is tried: what it drives, before it is known what the right chip shows.

use crate::test::{Drive, bit};
use pld_base::{Trace, Vector};

/// The outside levels, whether the clock is turned and turned back, and which released pins are tested for it: bit p for
/// pin p.
#[derive(Clone, Copy)]
pub struct Trial {
    pub outside: u32,
    pub is_pulse: bool,
    pub released: u32,
}

impl Trial {
    /// What it drives; `clock` is the bit of the clock's pin.
    pub fn drive(&self, clock: u32) -> Drive {
        let turned = if self.is_pulse {
            self.outside ^ clock
        } else {
            self.outside
        };
        Drive {
            outside: self.outside,
            turned,
        }
    }

    /// The trial with another level at a pin, or, if it was tested for being released, with a level there.
    pub fn with_turned(self, pin: u32) -> Trial {
        if self.released & pin != 0 {
            Trial {
                released: self.released & !pin,
                ..self
            }
        } else {
            Trial {
                outside: self.outside ^ pin,
                ..self
            }
        }
    }

    /// The character of a pin that has an outside level.
    fn char(&self, pin: u32, clock: u32, shown: Trace) -> u8 {
        let is_high = self.outside & pin != 0;
        if pin == clock && self.is_pulse {
            return if is_high { b'K' } else { b'C' };
        }
        if shown.driven & pin != 0 {
            return if shown.level & pin != 0 { b'H' } else { b'L' };
        }
        if self.released & pin != 0 {
            return b'Z';
        }
        if is_high { b'1' } else { b'0' }
    }

    /// The vector, if the right chip shows this with 0 and that with 1 at the pins that no vector drives; `pins` are those that
    /// have an outside level. A pin that shows both isn't tested.
    pub fn vector(&self, pins: u32, clock: u32, low: Trace, high: Trace) -> Vector {
        let unclear = low.driven ^ high.driven | low.level ^ high.level;
        let mut chars = [b'N'; 24];
        for index in 0..24 {
            let pin = bit(index as u8 + 1);
            if unclear & pin != 0 {
                chars[index] = b'X';
            } else if pins & pin != 0 {
                chars[index] = self.char(pin, clock, low);
            }
        }
        Vector { chars }
    }
}
