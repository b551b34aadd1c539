//! What a bit expression reads.

ghost use Rattle.std.specs.Prelude.{◌≡◌, Bool, false, ◌||◌};
ghost use Rattle.bit_expr.specs.declared.node.Leaf.{Leaf};
ghost use Rattle.bit_expr.specs.Formulas.{same_leaf};
ghost use Rattle.bit_expr.specs.Arena.{IsLeaf};
ghost use Rattle.bit_expr.specs.Reading.{AreReads};

use crate::node::Leaf;
use pld_base::{with_level, with_value};

/// The leaves that a bit names: bit p of `pins` is pin p, bit c of `q` is the Q of cell c, bit n of `nodes`
/// is node n.
#[derive(Clone, Copy, PartialEq, Eq)]
pub struct Reads {
    pub pins: u32,
    pub q: u32,
    pub nodes: u128,
}

/// No leaf.
pub(crate) fn nothing() -> Reads
    ensures { AreReads (λ leaf. false) result }
{
    Reads {
        pins: 0,
        q: 0,
        nodes: 0,
    }
}

/// One leaf.
pub(crate) fn just(leaf: Leaf) -> Reads
    requires { IsLeaf leaf }
    ensures { AreReads (λ other. same_leaf leaf other) result }
{
    let none = nothing();
    match leaf {
        Leaf::Pin(pin) => Reads {
            pins: with_level(0, pin, true),
            ..none
        },
        Leaf::Q(cell) => Reads {
            q: with_level(0, cell, true),
            ..none
        },
        Leaf::Node(node) => Reads {
            nodes: with_value(0, node, true),
            ..none
        },
    }
}

/// The leaves of either.
pub(crate) fn union(a: Reads, b: Reads) -> Reads
    ensures { (f g : Leaf → Bool) → AreReads f a → AreReads g b → AreReads (λ leaf. f leaf || g leaf) result }
{
    Reads {
        pins: a.pins | b.pins,
        q: a.q | b.q,
        nodes: a.nodes | b.nodes,
    }
}
