//! Lists of vertices.

ghost use Rattle.std.specs.Prelude.{◌≡◌, ◌<◌, ◌≤◌, ◌-◌, ◌∷◌, IfSome, IfNone, get_or, length, take};
ghost use Rattle.pld_order.specs.Search.{IsFirstIn, HasNoneOf};

use crate::VertexSet;
use arrayvec::ArrayVec;

/// The place of the first vertex of the list that is in the set.
pub fn place_in(list: &[u8], set: &VertexSet) -> Option<usize>
    ensures found { IfSome result (IsFirstIn list.now set.now) }
    ensures none { IfNone result (HasNoneOf list.now set.now) }
{
    for (i, vertex) in list.iter().enumerate() {
        if set.contains(*vertex) {
            return Some(i);
        }
    }
    None
}

/// The last vertex of the list, and then those before it.
pub fn last_first(list: &[u8]) -> ArrayVec<u8, 256>
    requires some { 0 < length list.now }
    requires few { length list.now ≤ 256 }
    ensures { result.items ≡ get_or list.now (length list.now - 1) 0 ∷ take (length list.now - 1) list.now }
{
    let last = list.len() - 1;
    let mut turned = ArrayVec::new();
    turned.push(list[last]);
    for i in 0..last {
        turned.push(list[i]);
    }
    turned
}
