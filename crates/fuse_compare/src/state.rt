//! A state of a search.

ghost use Rattle.std.specs.Prelude.{◌≡◌};

use crate::difference::Difference;
use device_logic::RowMask;

/// Outside levels, stored Qs, and a mask that holds if the first logic rests there.
#[derive(Clone, Copy)]
pub struct State {
    pub outside: u32,
    pub stored: u32,
    pub decided: RowMask,
}

impl State {
    /// That the logics differ there.
    pub fn difference(self, clocked: bool) -> Difference
        ensures outside { result.outside ≡ self.outside }
        ensures stored { result.stored ≡ self.stored }
        ensures clocked { result.clocked ≡ clocked }
    {
        Difference {
            outside: self.outside,
            stored: self.stored,
            clocked,
        }
    }
}
