//! The one point at rest.

ghost use Rattle.std.specs.Prelude.{◌≡◌, ◌<◌, ℕ};
ghost use Rattle.pld_machine.specs.Prelude.{bits, is_on, levels_of};
ghost use Rattle.pld_machine.specs.Lookups.{logic_of};
ghost use Rattle.pld_machine.specs.Order.{HasPins, IsOrdered};
ghost use Rattle.pld_machine.specs.Rest.{q_at_rest};
ghost use Rattle.pld_machine.specs.Settling.{settled_of};
ghost use Rattle.pld_machine.specs.Steps.{IsTheRest};

use crate::logic::Logic;
use crate::settling::settled;
use pld_base::Point;

/// The Q of a cell that rests at a point with these stored Qs.
fn resting_q_of<L: Logic>(logic: &L, at: &Point, stored: u32, cell: u8) -> bool
    requires pins { HasPins (L.meaning logic.now) }
    requires within { cell < (L.meaning logic.now).cells }
    ensures { result ≡ q_at_rest (logic_of (L.meaning logic.now)) (bits 32 stored) (levels_of at.now) cell }
{
    logic.stores(cell) && !logic.reset(at, cell) && pld_base::level_at(stored, cell)
}

/// The Qs that rest at a point with these stored Qs.
fn resting_q<L: Logic>(logic: &L, at: &Point, stored: u32) -> u32
    requires { HasPins (L.meaning logic.now) }
    ensures { (c : ℕ) → c < 32
        → is_on (bits 32 result) c
        ≡ q_at_rest (logic_of (L.meaning logic.now)) (bits 32 stored) (levels_of at.now) c }
{
    let mut q = 0;
    for cell in 0..logic.cells() {
        let on = resting_q_of(logic, at, stored, cell);
        q = pld_base::with_level(q, cell, on);
    }
    q
}

/// The point after all slots with these Qs, given the one with the stored Qs.
fn settled_with<L: Logic>(logic: &L, first: Point, outside: u32, stored: u32, q: u32) -> Point
    requires order { IsOrdered (L.meaning logic.now) }
    requires first { levels_of first
        ≡ settled_of (L.meaning logic.now) (bits 32 outside) (bits 32 stored) }
    ensures { levels_of result ≡ settled_of (L.meaning logic.now) (bits 32 outside) (bits 32 q) }
{
    if q == stored {
        first
    } else {
        settled(logic, outside, q)
    }
}

/// The one point at rest for these outside levels, bit p for pin p, and stored Qs, bit c for cell c.
///
/// Takes no memory.
pub fn rest<L: Logic>(logic: &L, outside: u32, stored: u32) -> Point
    requires { IsOrdered (L.meaning logic.now) }
    ensures { IsTheRest (logic_of (L.meaning logic.now))
        (bits 32 outside) (bits 32 stored) (levels_of result) }
{
    // No reset depends on a Q, so the resets here are those of the point at rest.
    let first = settled(logic, outside, stored);
    let q = resting_q(logic, &first, stored);
    settled_with(logic, first, outside, stored, q)
}
