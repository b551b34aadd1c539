//! Loops: the first of all that a graph has.

ghost use Rattle.std.specs.Prelude.{◌≡◌, ◌<◌, ◌≤◌, IfSome, IfNone, length, get_or};
ghost use Rattle.pld_order.specs.Graphs.{HasLoop, IsLeastLoop, IsLoop};
ghost use Rattle.pld_order.specs.Search.{IsOnNoLoop};
ghost use Rattle.pld_order.specs.Sets.{reads_of};

use crate::VertexSet;
use crate::paths::path;
use crate::vertices::last_first;
use arrayvec::ArrayVec;
use thiserror::Error;

/// A loop: each of these vertices reads the next one, and the last reads the first.
#[derive(Debug, Drop, Error)]
#[error("a chain of reads returns to where it began")]
pub struct LoopFound {
    pub vertices: ArrayVec<u8, 256>,
}

/// A loop that begins with this vertex.
fn loop_from(reads: &[VertexSet], vertex: u8) -> Option<ArrayVec<u8, 256>>
    requires few { length reads.now ≤ 256 }
    requires inside { vertex < length reads.now }
    ensures found { IfSome result (λ v. IsLoop (length reads.now) (reads_of reads.now) v.items) }
    ensures first { IfSome result (λ v. get_or v.items 0 0 ≡ vertex) }
    ensures none { IfNone result (IsOnNoLoop (length reads.now) (reads_of reads.now) vertex) }
{
    let mut ends = VertexSet::new();
    ends.insert(vertex);
    match path(reads, &reads[usize::from(vertex)], &ends) {
        None => None,
        Some(path) => Some(last_first(path.as_slice())),
    }
}

/// The loop that begins with the least vertex on any.
pub fn least_loop(reads: &[VertexSet]) -> LoopFound
    requires few { length reads.now ≤ 256 }
    requires some { HasLoop (length reads.now) (reads_of reads.now) }
    ensures { IsLeastLoop (length reads.now) (reads_of reads.now) result.vertices.items }
{
    for v in 0..reads.len() {
        match loop_from(reads, v as u8) {
            None => {}
            Some(vertices) => return LoopFound { vertices },
        }
    }
    unreachable!()
}
