//! The nodes of bit expressions.

ghost use Rattle.std.specs.Prelude.{◌≡◌, ◌<◌};
ghost use Rattle.pld_base.specs.Bits.{bits, is_on};
ghost use Rattle.pld_base.specs.Points.{levels_of};
ghost use Rattle.bit_expr.specs.Formulas.{leaf_value};
ghost use Rattle.bit_expr.specs.Arena.{IsLeaf};

use pld_base::{Point, level_at};

/// A place in the arena; 0 and 1 are the two constants.
#[derive(Clone, Copy, Debug, PartialEq, Eq)]
pub struct ExprId(pub usize);

/// What a bit may read: the level of a pin (below 32), the Q of a cell (below 32), the value of a node (below 128).
#[derive(Clone, Copy, Debug, PartialEq, Eq)]
pub enum Leaf {
    Pin(u8),
    Q(u8),
    Node(u8),
}

/// A constant, a leaf, or an operator over earlier nodes.
#[derive(Clone, Copy, Debug, PartialEq, Eq)]
pub enum Node {
    Const(bool),
    Leaf(Leaf),
    Not(ExprId),
    And(ExprId, ExprId),
    Or(ExprId, ExprId),
    Xor(ExprId, ExprId),
}

/// What a leaf carries at a point.
pub(crate) fn leaf_level(leaf: Leaf, at: &Point) -> bool
    requires { IsLeaf leaf }
    ensures { result ≡ leaf_value (levels_of at.now) leaf }
{
    match leaf {
        Leaf::Pin(pin) => level_at(at.pins, pin),
        Leaf::Q(cell) => level_at(at.q, cell),
        Leaf::Node(node) => value_at(at.nodes, node),
    }
}

/// The value of the node of that number.
fn value_at(values: u128, node: u8) -> bool
    requires { node < 128 }
    ensures { result ≡ is_on (bits 128 values) node }
{
    values >> node & 1 == 1
}
