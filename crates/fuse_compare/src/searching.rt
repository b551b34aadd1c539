//! The search for a state at which two logics differ.
//!
//! The idea: at each state that varies the variables alone, the first logic settles, and the second is
//! asked whether its cells want the same there; so it needn't settle itself. A branch in which no row
//! that one of the two has alone can be true is left without a look.
//!
//! Names: `from` counts the variables that have their levels.

ghost use Rattle.std.specs.Prelude.{◌≡◌, ◌<◌, ◌≤◌, IfSome, List, Bool, None, Some, drop, false, length, slice_get, true};
ghost use Rattle.fuse_compare.specs.Prelude.{bits, levels_of, logic_of};
ghost use Rattle.fuse_compare.specs.Alike.{FindsDifference, IsDifference};
ghost use Rattle.fuse_compare.specs.Cut.{IsDecided};
ghost use Rattle.fuse_compare.specs.Searching.{CanSearch};
ghost use Rattle.fuse_compare.specs.OneState.{AlikeAt, StoresOther, StoresToo, clock_is_low};
ghost use Rattle.fuse_compare.specs.States.{Suffices, Varies, VariesAt};
ghost use Rattle.fuse_compare.specs.Told.{IsTold, SameShape};

use crate::agreeing::{all_edges_too, all_too};
use crate::cut::{Cut, some_meets};
use crate::difference::Difference;
use crate::state::State;
use crate::variable::Variable;
use device_logic::RowMask;
use pld_base::{Point, level_at};
use pld_machine::{Logic, rest};

/// Two logics, the variables that distinguish their states, and what their search may pass over.
#[derive(Drop)]
pub struct Search<'a, A: Logic, B: Logic> {
    pub a: &'a A,
    pub b: &'a B,
    pub vars: &'a [Variable],
    pub cut: &'a Cut,
}

/// Whether the clock is there and low outside.
fn clock_is_low<L: Logic>(logic: &L, outside: u32) -> bool
    requires { IsTold (L.meaning logic.now) }
    ensures { result ≡ clock_is_low (L.meaning logic.now) (bits 32 outside) }
{
    logic.clock() != 0 && !level_at(outside, logic.clock())
}

/// Whether the clock is low and the two have other Qs after its edge.
fn stores_other<A: Logic, B: Logic>(a: &A, b: &B, at: &Point, outside: u32) -> bool
    requires shape { SameShape (A.meaning a.now) (B.meaning b.now) }
    requires first { IsTold (A.meaning a.now) }
    ensures other { result ≡ true
        → StoresOther (A.meaning a.now) (B.meaning b.now) (bits 32 outside) (levels_of at.now) }
    ensures too { result ≡ false
        → StoresToo (A.meaning a.now) (B.meaning b.now) (bits 32 outside) (levels_of at.now) }
{
    if clock_is_low(a, outside) {
        !all_edges_too(a, b, at)
    } else {
        false
    }
}

/// The difference at a state, or None if there isn't one.
fn difference_at<A: Logic, B: Logic>(a: &A, b: &B, state: State) -> Option<Difference>
    requires shape { SameShape (A.meaning a.now) (B.meaning b.now) }
    requires first { IsTold (A.meaning a.now) }
    requires second { IsTold (B.meaning b.now) }
    ensures alike { result ≡ None
        → AlikeAt (A.meaning a.now) (B.meaning b.now) (bits 32 state.outside) (bits 32 state.stored) }
    ensures differ { IfSome result
        (IsDifference (logic_of (A.meaning a.now)) (logic_of (B.meaning b.now))) }
    ensures state { IfSome result (λ d. (d.outside ≡ state.outside) × (d.stored ≡ state.stored)) }
{
    let at = rest(a, state.outside, state.stored);
    if !all_too(a, b, &at, state.stored) {
        return Some(state.difference(false));
    }
    if stores_other(a, b, &at, state.outside) {
        return Some(state.difference(true));
    }
    None
}

/// The variable of a number.
fn variable_at(vars: &[Variable], index: usize) -> Variable
    requires { index < length vars.now }
    ensures { slice_get vars.now index ≡ Some result }
{
    vars[index]
}

/// The first difference at the states that vary the variables from this one on, which has this level.
#[cycle(searching)]
fn search_at<A: Logic, B: Logic>(
    search: &Search<'_, A, B>,
    from: usize,
    state: State,
    on: bool,
) -> Option<Difference>
    requires can { CanSearch (A.meaning search.now.a.now) (B.meaning search.now.b.now)
        search.now.vars.now search.now.cut.now }
    requires within { from < length search.now.vars.now }
    requires decided { IsDecided (A.meaning search.now.a.now) (drop from search.now.vars.now)
        (bits 32 state.outside) (bits 32 state.stored) state.decided }
    ensures alike { result ≡ None → (o s : List Bool)
        → VariesAt (drop from search.now.vars.now) on (bits 32 state.outside) (bits 32 state.stored) o s
        → AlikeAt (A.meaning search.now.a.now) (B.meaning search.now.b.now) o s }
    ensures differ { IfSome result (IsDifference
        (logic_of (A.meaning search.now.a.now)) (logic_of (B.meaning search.now.b.now))) }
    ensures state { IfSome result (λ d. VariesAt (drop from search.now.vars.now) on
        (bits 32 state.outside) (bits 32 state.stored) (bits 32 d.outside) (bits 32 d.stored)) }
{
    match variable_at(search.vars, from) {
        Variable::Pin(pin) => search_from(search, from + 1, search.cut.with_pin(state, pin, on)),
        Variable::Q(cell) => search_from(search, from + 1, search.cut.with_q(state, cell, on)),
    }
}

/// The first difference at the states that vary the variables from this one on, and nothing else.
#[cycle(searching)]
fn search_from<A: Logic, B: Logic>(
    search: &Search<'_, A, B>,
    from: usize,
    state: State,
) -> Option<Difference>
    requires can { CanSearch (A.meaning search.now.a.now) (B.meaning search.now.b.now)
        search.now.vars.now search.now.cut.now }
    requires within { from ≤ length search.now.vars.now }
    requires decided { IsDecided (A.meaning search.now.a.now) (drop from search.now.vars.now)
        (bits 32 state.outside) (bits 32 state.stored) state.decided }
    ensures alike { result ≡ None → (o s : List Bool)
        → Varies (drop from search.now.vars.now) (bits 32 state.outside) (bits 32 state.stored) o s
        → AlikeAt (A.meaning search.now.a.now) (B.meaning search.now.b.now) o s }
    ensures differ { IfSome result (IsDifference
        (logic_of (A.meaning search.now.a.now)) (logic_of (B.meaning search.now.b.now))) }
    ensures state { IfSome result (λ d. Varies (drop from search.now.vars.now)
        (bits 32 state.outside) (bits 32 state.stored) (bits 32 d.outside) (bits 32 d.stored)) }
{
    if !some_meets(&search.cut.own, state.decided) {
        return None;
    }
    if from == search.vars.len() {
        return difference_at(search.a, search.b, state);
    }
    match search_at(search, from, state, false) {
        Some(found) => Some(found),
        None => search_at(search, from, state, true),
    }
}

/// A difference of two logics, or None if they are alike, by the states of variables that suffice; all
/// other Qs are stored as `fixed` says.
pub fn compared<A: Logic, B: Logic>(search: &Search<'_, A, B>, fixed: u32) -> Option<Difference>
    requires can { CanSearch (A.meaning search.now.a.now) (B.meaning search.now.b.now)
        search.now.vars.now search.now.cut.now }
    requires suffices { Suffices (A.meaning search.now.a.now) (B.meaning search.now.b.now)
        search.now.vars.now (bits 32 fixed) }
    ensures found { FindsDifference
        (logic_of (A.meaning search.now.a.now)) (logic_of (B.meaning search.now.b.now)) result }
    ensures state { IfSome result (λ d.
        Varies search.now.vars.now (bits 32 0) (bits 32 fixed) (bits 32 d.outside) (bits 32 d.stored)) }
{
    let first = State {
        outside: 0,
        stored: fixed,
        decided: RowMask::full(),
    };
    search_from(search, 0, first)
}
