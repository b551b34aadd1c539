//! The levels that a trial begins with: those that rows ask, and random ones.

use crate::chance::Chance;
use crate::suspect::Target;
use crate::wiring::pins_of;
use device_logic::RowMask;
use pld_base::Point;

/// The outside levels so far, and the pins whose levels stay.
#[derive(Clone, Copy)]
pub struct Aim {
    pub outside: u32,
    pub fixed: u32,
}

/// The pins at which a point doesn't have the level that a mask asks.
pub fn missing(mask: RowMask, at: &Point) -> u32 {
    mask.pins.yes & !at.pins | mask.pins.no & at.pins
}

/// The pins that only the stricter mask asks.
pub fn added(target: &Target) -> u32 {
    pins_of(target.strict) & !pins_of(target.loose)
}

impl Aim {
    /// The levels that a mask asks, but at pins whose levels stay.
    pub fn to_mask(self, mask: RowMask) -> Aim {
        let cleared = self.outside & !(mask.pins.no & !self.fixed);
        Aim {
            outside: cleared | mask.pins.yes & !self.fixed,
            fixed: self.fixed,
        }
    }

    /// Random levels but for the row's: it is true on the one chip alone.
    pub fn begun(target: &Target, chance: &mut Chance, pins: u32, clock: u32) -> Aim {
        let any = Aim {
            outside: chance.word() & pins & !clock,
            fixed: clock,
        };
        let loose = any.to_mask(target.loose);
        let more = added(target) & !clock;
        let opposite = loose.outside & !(target.strict.pins.yes & more)
            | target.strict.pins.no & more;
        Aim {
            outside: opposite,
            fixed: clock | pins_of(target.loose) | more,
        }
    }
}
