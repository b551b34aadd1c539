//! The one point after a step.

ghost use Rattle.std.specs.Prelude.{◌≢◌, true, false, ◌≡◌, ◌<◌, ℕ};
ghost use Rattle.pld_machine.specs.Prelude.{bits, is_on, levels_of};
ghost use Rattle.pld_machine.specs.Lookups.{logic_of};
ghost use Rattle.pld_machine.specs.Order.{HasPins, IsOrdered};
ghost use Rattle.pld_machine.specs.Settling.{RestsFor, q_at_edge};
ghost use Rattle.pld_machine.specs.Steps.{IsTheRest, IsTheStep};

use crate::logic::Logic;
use crate::rests::rest;
use pld_base::Point;

/// The Q of a cell after the clock's edge at this point: reset before preset before data.
fn edge_q_of<L: Logic>(logic: &L, at: &Point, cell: u8) -> bool
    requires { cell < (L.meaning logic.now).cells }
    ensures { result ≡ q_at_edge (L.meaning logic.now) (levels_of at.now) cell }
{
    logic.stores(cell) && !logic.reset(at, cell) && (logic.preset(at, cell) || logic.next(at, cell))
}

/// The Qs after the clock's edge at this point.
fn edge_q<L: Logic>(logic: &L, at: &Point) -> u32
    requires { HasPins (L.meaning logic.now) }
    ensures { (c : ℕ) → c < 32
        → is_on (bits 32 result) c ≡ q_at_edge (L.meaning logic.now) (levels_of at.now) c }
{
    let mut q = 0;
    for cell in 0..logic.cells() {
        let on = edge_q_of(logic, at, cell);
        q = pld_base::with_level(q, cell, on);
    }
    q
}

/// The Qs after the clock's new level at this point.
fn clocked_q<L: Logic>(logic: &L, at: &Point, edge: bool) -> u32
    requires { HasPins (L.meaning logic.now) }
    ensures edge { edge ≡ true → (c : ℕ) → c < 32
        → is_on (bits 32 result) c ≡ q_at_edge (L.meaning logic.now) (levels_of at.now) c }
    ensures no_edge { edge ≡ false → bits 32 result ≡ (levels_of at.now).q }
{
    if edge { edge_q(logic, at) } else { at.q }
}

/// The one point at rest for these outside levels and Qs, given one at rest for the held levels.
fn rest_after<L: Logic>(logic: &L, at: Point, held: u32, outside: u32, q: u32) -> Point
    requires order { IsOrdered (L.meaning logic.now) }
    requires rests { RestsFor (logic_of (L.meaning logic.now)) (bits 32 held) (levels_of at) }
    ensures { IsTheRest (logic_of (L.meaning logic.now))
        (bits 32 outside) (bits 32 q) (levels_of result) }
{
    if held == outside && q == at.q {
        at
    } else {
        rest(logic, outside, q)
    }
}

/// The one point after a step of a logic with a clock.
fn clocked_step<L: Logic>(logic: &L, before: &Point, outside: u32) -> Point
    requires order { IsOrdered (L.meaning logic.now) }
    requires clock { (L.meaning logic.now).clock ≢ 0 }
    ensures { IsTheStep (logic_of (L.meaning logic.now))
        (levels_of before.now) (bits 32 outside) (levels_of result) }
{
    let clock = logic.clock();
    let was = pld_base::level_at(before.pins, clock);
    let held = pld_base::with_level(outside, clock, was);
    let between = rest(logic, held, before.q);
    let edge = !was & pld_base::level_at(outside, clock);
    let q = clocked_q(logic, &between, edge);
    rest_after(logic, between, held, outside, q)
}

/// The one point after a step to new outside levels, bit p for pin p.
///
/// Of `before` only its Qs and its clock's level count. Takes no memory.
pub fn step<L: Logic>(logic: &L, before: &Point, outside: u32) -> Point
    requires { IsOrdered (L.meaning logic.now) }
    ensures { IsTheStep (logic_of (L.meaning logic.now))
        (levels_of before.now) (bits 32 outside) (levels_of result) }
{
    if logic.clock() == 0 {
        rest(logic, outside, before.q)
    } else {
        clocked_step(logic, before, outside)
    }
}
