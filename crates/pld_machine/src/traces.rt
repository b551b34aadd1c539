//! What a point shows.

ghost use Rattle.pld_machine.specs.Prelude.{bits, levels_of};
ghost use Rattle.pld_machine.specs.Shows.{Shows};
ghost use Rattle.pld_machine.specs.Lookups.{logic_of};
ghost use Rattle.pld_machine.specs.Order.{HasPins};

use crate::logic::Logic;
use pld_base::{Point, Trace};

/// What a point shows: each cell's pin as driven with its level, or released. Takes no memory.
pub fn trace<L: Logic>(logic: &L, at: &Point) -> Trace
    requires { HasPins (L.meaning logic.now) }
    ensures { Shows (logic_of (L.meaning logic.now))
        (levels_of at.now) (bits 32 result.driven) (bits 32 result.level) }
{
    let mut driven = 0;
    for cell in 0..logic.cells() {
        let on = logic.enable(at, cell);
        driven = pld_base::with_level(driven, logic.pin(cell), on);
    }
    Trace {
        driven,
        level: driven & at.pins,
    }
}
