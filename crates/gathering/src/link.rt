//! A signal as others read it, and what it reads.

ghost use Rattle.std.specs.Prelude.{◌≡◌, ◌<◌, IfSome};
ghost use Rattle.gathering.specs.Prelude.{bits, is_on, IsLeaf};
ghost use Rattle.gathering.specs.{has_if_any};

use bit_expr::{Leaf, Reads};
use pld_base::level_at;

/// A signal: the leaf by which it is read, if it can be; the leaves that it reads while it settles, which a
/// register does not; and whether it is a register.
#[derive(Clone, Copy, PartialEq, Eq)]
pub struct Link {
    pub leaf: Option<Leaf>,
    pub reads: Reads,
    pub stored: bool,
}

/// Whether the node of that number is one of these.
fn has_node(nodes: u128, node: u8) -> bool
    requires { node < 128 }
    ensures { result ≡ is_on (bits 128 nodes) node }
{
    nodes >> node & 1 == 1
}

/// Whether there is a leaf, and it is one of those that are read.
pub(crate) fn has_if_any(reads: &Reads, leaf: Option<Leaf>) -> bool
    requires { IfSome leaf IsLeaf }
    ensures { result ≡ has_if_any reads.now leaf }
{
    match leaf {
        None => false,
        Some(Leaf::Pin(pin)) => level_at(reads.pins, pin),
        Some(Leaf::Q(cell)) => level_at(reads.q, cell),
        Some(Leaf::Node(node)) => has_node(reads.nodes, node),
    }
}
