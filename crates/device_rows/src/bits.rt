//! The calls on a few bits worked by hand, the limit, and a bit that shares its nodes a thousand times.

ghost use Rattle.std.specs.Prelude.{◌<◌, length};
ghost use Rattle.bit_expr.specs.Arena.{arena};

use bit_expr::{ExprFault, Exprs, Leaf, Node, Reads};
use pld_base::Point;
use std::alloc::Global;

/// Whether bits are folded, read and valued.
pub fn few_bits(alloc: Global) -> Result<[bool; 5], ExprFault> {
    let mut exprs = Exprs::new(alloc);
    let pin = exprs.add(Node::Leaf(Leaf::Pin(3)))?;
    let q = exprs.add(Node::Leaf(Leaf::Q(9)))?;
    let node = exprs.add(Node::Leaf(Leaf::Node(127)))?;
    let not_q = exprs.add(Node::Not(q))?;
    let both = exprs.add(Node::And(pin, not_q))?;
    let all = exprs.add_more(Node::Xor(both, node))?;
    let is_folded = exprs.add(Node::Not(not_q))? == q;
    let wanted = Reads {
        pins: 1 << 3,
        q: 1 << 9,
        nodes: 1 << 127,
    };
    let at = Point {
        pins: 1 << 3,
        q: 0,
        nodes: 1 << 127,
    };
    Ok([
        exprs.get(both) == Node::And(pin, not_q),
        is_folded,
        exprs.reads(all) == wanted,
        exprs.eval(both, &at),
        !exprs.eval(all, &at),
    ])
}

/// Whether the limit occurs at the next node, and neither at a constant nor if there isn't one.
pub fn limit(alloc: Global) -> Result<[bool; 2], ExprFault> {
    let mut exprs = Exprs::new(alloc);
    for _count in 0..262_144 {
        exprs.add(Node::Leaf(Leaf::Pin(0)))?;
    }
    let is_full = exprs.add(Node::Leaf(Leaf::Pin(0))) == Err(ExprFault::NodeLimit);
    let one = exprs.add(Node::Const(true))?;
    let is_one = exprs.get(one) == Node::Const(true);
    exprs.add_more(Node::Leaf(Leaf::Pin(0)))?;
    Ok([is_full, is_one])
}

/// Whether the reads of shared nodes are at hand: as a tree the last bit has 2 to the power of 1,000 leaves.
pub fn shared(alloc: Global) -> Result<[bool; 1], ExprFault> {
    let mut exprs = Exprs::new(alloc);
    let mut bit = exprs.add(Node::Leaf(Leaf::Q(2)))?;
    for _count in 0..1_000 {
        bit = exprs.add(Node::Or(bit, bit))?;
    }
    let wanted = Reads {
        pins: 0,
        q: 1 << 2,
        nodes: 0,
    };
    Ok([exprs.reads(bit) == wanted])
}
