//! The states that a search may pass over, since no row that one logic has alone can be true there.
//!
//! The idea: if each row that is true is one of both logics, they answer the same. So a branch whose
//! levels so far keep all other rows at 0 has no difference. A pin has its outside level at which no
//! cell can drive it, and a stored 0 rests as 0; a stored 1 rests as 1 in a register that is never
//! reset.

ghost use Rattle.std.specs.Prelude.{◌≡◌, ◌<◌, ◌||◌, false, not, slice_set, true};
ghost use Rattle.fuse_compare.specs.Prelude.{bits, is_on, same_level, IsPoint, Levels, HoldsWith, holds};
ghost use Rattle.fuse_compare.specs.Cut.{some_holds};

use crate::state::State;
use device_logic::RowMask;
use pld_base::{level_at, with_level};

/// What is known of two logics before they are searched: masks of the rows that one has alone, the pins
/// that no cell of the first drives, and its registers that are never reset.
#[derive(Drop)]
pub struct Cut {
    pub own: Vec<RowMask>,
    pub free: u32,
    pub kept: u32,
}

/// Whether one of the masks asks nothing that is decided otherwise.
pub fn some_meets(masks: &[RowMask], decided: RowMask) -> bool
    ensures { result ≡ false → (at : Levels) → IsPoint at
        → holds decided at ≡ true → some_holds masks.now at ≡ false }
{
    for mask in masks {
        if mask.meets(decided) {
            return true;
        }
    }
    false
}

impl Cut {
    /// The state with this level of a pin, which is decided if no cell drives the pin.
    pub fn with_pin(&self, state: State, pin: u8, on: bool) -> State
        requires { pin < 32 }
        ensures outside { bits 32 result.outside ≡ slice_set (bits 32 state.outside) pin on }
        ensures stored { result.stored ≡ state.stored }
        ensures free { is_on (bits 32 self.now.free) pin ≡ true
            → HoldsWith state.decided result.decided (λ at. same_level on (is_on at.pins pin)) }
        ensures driven { is_on (bits 32 self.now.free) pin ≡ false
            → result.decided ≡ state.decided }
    {
        let decided = if level_at(self.free, pin) {
            state.decided.with_pin(pin, on)
        } else {
            state.decided
        };
        State {
            outside: with_level(state.outside, pin, on),
            stored: state.stored,
            decided,
        }
    }

    /// The state with this stored Q of a cell, which is decided if it rests so.
    pub fn with_q(&self, state: State, cell: u8, on: bool) -> State
        requires { cell < 32 }
        ensures outside { result.outside ≡ state.outside }
        ensures stored { bits 32 result.stored ≡ slice_set (bits 32 state.stored) cell on }
        ensures rests { (not on || is_on (bits 32 self.now.kept) cell) ≡ true
            → HoldsWith state.decided result.decided (λ at. same_level on (is_on at.q cell)) }
        ensures hidden { (not on || is_on (bits 32 self.now.kept) cell) ≡ false
            → result.decided ≡ state.decided }
    {
        let decided = if !on || level_at(self.kept, cell) {
            state.decided.with_q(cell, on)
        } else {
            state.decided
        };
        State {
            outside: state.outside,
            stored: with_level(state.stored, cell, on),
            decided,
        }
    }
}
