//! The vertices that lead to ends: repeatedly append a vertex that is an end or reads one of the
//! list, until none is left that does. Each vertex of the list is then the first of a path, and no
//! other vertex is.
//!
//! `leading` is the list or the set of those found so far, `ends` the set that they lead to.

ghost use Rattle.std.specs.Prelude.{◌≤◌, IfSome, IfNone, length};
ghost use Rattle.pld_base.specs.Bits.{is_on};
ghost use Rattle.pld_order.specs.Search.{AreLeading, IsClosed, LeadsInto, NoneLeadsInto};
ghost use Rattle.pld_order.specs.Sets.{reads_of};

use crate::VertexSet;
use arrayvec::ArrayVec;

/// A vertex that isn't in `leading`, though it is an end or reads one of it.
fn next_leading(reads: &[VertexSet], ends: &VertexSet, leading: &VertexSet) -> Option<u8>
    requires { length reads.now ≤ 256 }
    ensures found { IfSome result (LeadsInto reads.now ends.now leading.now) }
    ensures none { IfNone result (NoneLeadsInto reads.now ends.now leading.now) }
{
    for v in 0..reads.len() {
        if !leading.contains(v as u8) && (ends.contains(v as u8) || reads[v].meets(leading)) {
            return Some(v as u8);
        }
    }
    None
}

/// The vertices that lead to ends, each after one that it reads or an end itself.
pub fn leading(reads: &[VertexSet], ends: &VertexSet) -> ArrayVec<u8, 256>
    requires { length reads.now ≤ 256 }
    ensures lead { AreLeading (length reads.now) (reads_of reads.now) (is_on ends.now) result.items }
    ensures closed { IsClosed (length reads.now) (reads_of reads.now) (is_on ends.now) result.items }
{
    let mut list = ArrayVec::new();
    let mut set = VertexSet::new();
    loop {
        match next_leading(reads, ends, &set) {
            None => return list,
            Some(v) => {
                list.push(v);
                set.insert(v);
            }
        }
    }
}
