//! The order of a graph's vertices: repeatedly append a vertex all of whose reads are in the list.
//! If none is left that can be appended and some vertex waits, each that waits reads another that
//! waits, so that some lie on a loop.
//!
//! `order` is the list, `done` the set of its vertices and of all numbers that aren't one.

ghost use Rattle.std.specs.Prelude.{◌≡◌, ◌↔◌, ◌≤◌, ◌<◌, ℕ, [], true, IfOk, IfErr, IfSome, IfNone, length};
ghost use Rattle.pld_base.specs.Bits.{is_on};
ghost use Rattle.pld_order.specs.Graphs.{HasNoLoop, HasNoOrder, IsLeastLoop, IsOrder};
ghost use Rattle.pld_order.specs.Search.{IsDone, IsReadyBy, NoneIsReady};
ghost use Rattle.pld_order.specs.Sets.{reads_of};

use crate::VertexSet;
use crate::loops::{LoopFound, least_loop};
use arrayvec::ArrayVec;

/// The numbers that are no vertices.
fn no_vertices(count: usize) -> VertexSet
    requires { count ≤ 256 }
    ensures { IsDone count [] result }
{
    let mut others = VertexSet::new();
    for v in count..256 {
        others.insert(v as u8);
    }
    others
}

/// A vertex that isn't done, while all that it reads is.
fn ready(reads: &[VertexSet], done: &VertexSet) -> Option<u8>
    requires { length reads.now ≤ 256 }
    ensures found { IfSome result (IsReadyBy reads.now done.now) }
    ensures none { IfNone result (NoneIsReady reads.now done.now) }
{
    for v in 0..reads.len() {
        if !done.contains(v as u8) && reads[v].is_within(done) {
            return Some(v as u8);
        }
    }
    None
}

/// Whether all vertices are done.
fn all_done(count: usize, done: &VertexSet) -> bool
    requires { count ≤ 256 }
    ensures { (result ≡ true) ↔ ((v : ℕ) → v < count → is_on done.now v ≡ true) }
{
    for v in 0..count {
        if !done.contains(v as u8) {
            return false;
        }
    }
    true
}

/// All vertices in an order in which none reads itself or a later one, or the loop that begins with
/// the least vertex on any.
///
/// A vertex is the place of the set that it reads; other numbers count for nothing. Takes no memory.
/// The time is of the square of the number of vertices if there is an order, and at most of its cube
/// if there is a loop.
pub fn order(reads: &[VertexSet]) -> Result<ArrayVec<u8, 256>, LoopFound>
    requires { length reads.now ≤ 256 }
    ensures ok { IfOk result (λ order. IsOrder (length reads.now) (reads_of reads.now) order.items) }
    ensures no_loop { IfOk result (λ _. HasNoLoop (length reads.now) (reads_of reads.now)) }
    ensures refused { IfErr result (λ found.
        IsLeastLoop (length reads.now) (reads_of reads.now) found.vertices.items) }
    ensures no_order { IfErr result (λ _. HasNoOrder (length reads.now) (reads_of reads.now)) }
{
    let mut order = ArrayVec::new();
    let mut done = no_vertices(reads.len());
    loop {
        match ready(reads, &done) {
            Some(v) => {
                order.push(v);
                done.insert(v);
            }
            None => {
                if all_done(reads.len(), &done) {
                    return Ok(order);
                }
                return Err(least_loop(reads));
            }
        }
    }
}
