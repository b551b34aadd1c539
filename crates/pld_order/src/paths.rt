//! Paths: from the first start among the vertices that lead to ends, go to the first of them that is
//! read, until an end occurs. Each step goes to an earlier place, so no vertex occurs twice.
//!
//! `leading` is the list of the vertices that lead to ends, `place` the place of the walk in it.

ghost use Rattle.std.specs.Prelude.{◌≤◌, ◌<◌, eqb, IfSome, IfNone, length, get_or};
ghost use Rattle.std.specs.List.{IsDistinct};
ghost use Rattle.pld_base.specs.Bits.{is_on};
ghost use Rattle.pld_order.specs.Graphs.{HasNoPath, IsPath};
ghost use Rattle.pld_order.specs.Search.{AreLeading};
ghost use Rattle.pld_order.specs.Sets.{reads_of};

use crate::VertexSet;
use crate::leading::leading;
use crate::vertices::place_in;
use arrayvec::ArrayVec;

/// The path from a place of the leading vertices on.
fn followed(
    reads: &[VertexSet],
    ends: &VertexSet,
    leading: &[u8],
    start: usize,
) -> ArrayVec<u8, 256>
    requires few { length reads.now ≤ 256 }
    requires within { start < length leading.now }
    requires lead { AreLeading (length reads.now) (reads_of reads.now) (is_on ends.now) leading.now }
    ensures path { IsPath (length reads.now) (reads_of reads.now)
        (eqb (get_or leading.now start 0)) (is_on ends.now) result.items }
    ensures once { IsDistinct eqb result.items }
{
    let mut path = ArrayVec::new();
    let mut place = start;
    loop {
        let vertex = leading[place];
        path.push(vertex);
        if ends.contains(vertex) {
            return path;
        }
        match place_in(leading, &reads[usize::from(vertex)]) {
            Some(next) => place = next,
            None => unreachable!(),
        }
    }
}

/// Vertices each of which reads the next one, from one of the starts to one of the ends.
///
/// A vertex is the place of the set that it reads; other numbers count for nothing. Takes no memory,
/// and time of the square of the number of vertices.
pub fn path(reads: &[VertexSet], starts: &VertexSet, ends: &VertexSet) -> Option<ArrayVec<u8, 256>>
    requires { length reads.now ≤ 256 }
    ensures found { IfSome result (λ path.
        IsPath (length reads.now) (reads_of reads.now) (is_on starts.now) (is_on ends.now) path.items) }
    ensures once { IfSome result (λ path. IsDistinct eqb path.items) }
    ensures none { IfNone result
        (HasNoPath (length reads.now) (reads_of reads.now) (is_on starts.now) (is_on ends.now)) }
{
    let leading = leading(reads, ends);
    match place_in(leading.as_slice(), starts) {
        None => None,
        Some(start) => Some(followed(reads, ends, leading.as_slice(), start)),
    }
}
