//! Whether a point at rest of one logic is one of another too, with the same Qs after the clock's edge.

ghost use Rattle.std.specs.Prelude.{◌≡◌, ◌<◌, true, false};
ghost use Rattle.fuse_compare.specs.Prelude.{bits, levels_of, logic_of, HasPins, q_at_rest, q_at_edge};
ghost use Rattle.fuse_compare.specs.OneState.{AllToo, AllEdgesToo, cell_too, drives_so, edge_too};
ghost use Rattle.fuse_compare.specs.Told.{SameShape};

use pld_base::{Point, level_at};
use pld_machine::Logic;

/// The Q of a cell that rests at a point with these stored Qs.
fn resting_q<L: Logic>(logic: &L, at: &Point, stored: u32, cell: u8) -> bool
    requires pins { HasPins (L.meaning logic.now) }
    requires within { cell < (L.meaning logic.now).cells }
    ensures { result ≡ q_at_rest (logic_of (L.meaning logic.now))
        (bits 32 stored) (levels_of at.now) cell }
{
    logic.stores(cell) && !logic.reset(at, cell) && level_at(stored, cell)
}

/// The Q of a cell after the clock's edge at a point.
fn edge_q<L: Logic>(logic: &L, at: &Point, cell: u8) -> bool
    requires { cell < (L.meaning logic.now).cells }
    ensures { result ≡ q_at_edge (L.meaning logic.now) (levels_of at.now) cell }
{
    logic.stores(cell) && !logic.reset(at, cell) && (logic.preset(at, cell) || logic.next(at, cell))
}

/// Whether a cell's pin has the level that the cell drives, if it does.
fn drives_so<L: Logic>(logic: &L, at: &Point, cell: u8, enabled: bool) -> bool
    requires pins { HasPins (L.meaning logic.now) }
    requires within { cell < (L.meaning logic.now).cells }
    ensures { result ≡ drives_so (L.meaning logic.now) (levels_of at.now) cell enabled }
{
    !enabled || level_at(at.pins, logic.pin(cell)) == logic.level(at, cell)
}

/// Whether the second logic asks of a cell what the first one's point has.
fn cell_too<A: Logic, B: Logic>(a: &A, b: &B, at: &Point, stored: u32, cell: u8) -> bool
    requires pins { HasPins (B.meaning b.now) }
    requires first { cell < (A.meaning a.now).cells }
    requires second { cell < (B.meaning b.now).cells }
    ensures { result ≡ cell_too (A.meaning a.now) (B.meaning b.now)
        (levels_of at.now) (bits 32 stored) cell }
{
    let enabled = b.enable(at, cell);
    a.enable(at, cell) == enabled
        && drives_so(b, at, cell, enabled)
        && level_at(at.q, cell) == resting_q(b, at, stored, cell)
}

/// Whether it does so of each cell.
pub fn all_too<A: Logic, B: Logic>(a: &A, b: &B, at: &Point, stored: u32) -> bool
    requires pins { HasPins (B.meaning b.now) }
    requires shape { SameShape (A.meaning a.now) (B.meaning b.now) }
    ensures all { result ≡ true
        → AllToo (A.meaning a.now) (B.meaning b.now) (levels_of at.now) (bits 32 stored) }
    ensures not_all { result ≡ false
        → AllToo (A.meaning a.now) (B.meaning b.now) (levels_of at.now) (bits 32 stored) → ⊥ }
{
    for cell in 0..a.cells() {
        if !cell_too(a, b, at, stored, cell) {
            return false;
        }
    }
    true
}

/// Whether a cell has the same Q in both after the clock's edge.
fn edge_too<A: Logic, B: Logic>(a: &A, b: &B, at: &Point, cell: u8) -> bool
    requires first { cell < (A.meaning a.now).cells }
    requires second { cell < (B.meaning b.now).cells }
    ensures { result ≡ edge_too (A.meaning a.now) (B.meaning b.now) (levels_of at.now) cell }
{
    edge_q(a, at, cell) == edge_q(b, at, cell)
}

/// Whether each cell has.
pub fn all_edges_too<A: Logic, B: Logic>(a: &A, b: &B, at: &Point) -> bool
    requires shape { SameShape (A.meaning a.now) (B.meaning b.now) }
    ensures all { result ≡ true
        → AllEdgesToo (A.meaning a.now) (B.meaning b.now) (levels_of at.now) }
    ensures not_all { result ≡ false
        → AllEdgesToo (A.meaning a.now) (B.meaning b.now) (levels_of at.now) → ⊥ }
{
    for cell in 0..a.cells() {
        if !edge_too(a, b, at, cell) {
            return false;
        }
    }
    true
}
