//! Products of formulas, the limit, formulas whose nodes are shared, and a deep one.

ghost use Rattle.std.specs.Prelude.{◌≡◌, ◌<◌, ℕ, IfOk, IsTrue, get_or, length, true, false};
ghost use Rattle.bit_expr.specs.Arena.{LiesIn, arena, formula_of};
ghost use Rattle.bit_expr.specs.Formulas.{Const};
ghost use Rattle.sop_lowering.specs.Lowering.{CanLower, HasPair};
ghost use Rattle.sop_lowering.specs.Through.{Reaches};

use crate::cubes::put_cubes;
use crate::formulas::{Formula, formula_of, netlist};
use bit_expr::{ExprId, Exprs, Leaf, Netlist, Node};
use covers::Cube;
use sop_lowering::{LowerFault, lower};
use std::alloc::{AllocError, Global};
use test_rows::Found;

/// Whether every leaf of the node's formula is a pin or a Q with a pair; `paired` says so of the earlier formulas.
fn is_paired(net: &Netlist, node: Node, paired: &[bool]) -> bool
    requires inside { LiesIn (length paired.now) node }
    requires paired { (k : ℕ) → get_or paired.now k false ≡ true → Reaches net.now (HasPair net.now) (get_or (arena net.now.exprs) k (Const false)) }
    ensures { IsTrue result → Reaches net.now (HasPair net.now) (formula_of (arena net.now.exprs) node) }
{
    match node {
        Node::Const(_) => true,
        Node::Leaf(Leaf::Pin(pin)) => pin < 25 && net.pair_of_pin[pin as usize] < 22,
        Node::Leaf(Leaf::Q(cell)) => cell < 25 && net.pair_of_cell[cell as usize] < 22,
        Node::Leaf(Leaf::Node(_)) => false,
        Node::Not(a) => paired[a.0],
        Node::And(a, b) => paired[a.0] && paired[b.0],
        Node::Or(a, b) => paired[a.0] && paired[b.0],
        Node::Xor(a, b) => paired[a.0] && paired[b.0],
    }
}

/// Whether the bit can be lowered, for netlists without nodes.
fn can_lower(alloc: Global, net: &Netlist, id: ExprId) -> Result<bool, AllocError>
    requires { id.0 < length (arena net.now.exprs) }
    ensures { IfOk result (λ can. IsTrue can → CanLower net.now id) }
{
    let mut paired = Vec::new(alloc);
    for earlier in 0..id.0 {
        let is = is_paired(net, net.exprs.get(ExprId(earlier)), &paired);
        paired.push(is)?;
    }
    Ok(is_paired(net, net.exprs.get(id), &paired))
}

/// The list of a bit that can be lowered.
fn list(alloc: Global, net: &Netlist, id: ExprId, positive: bool) -> Result<Vec<Cube>, LowerFault>
    requires { id.0 < length (arena net.now.exprs) }
{
    if can_lower(alloc, net, id)? {
        lower(alloc, net, id, positive)
    } else {
        Ok(Vec::new(alloc))
    }
}

/// The products of a formula, or of its complement.
fn products(alloc: Global, formula: Formula, positive: bool) -> Result<Vec<Cube>, LowerFault> {
    let Formula { exprs, bit } = formula;
    let net = netlist(alloc, exprs);
    list(alloc, &net, bit, positive)
}

/// The products of a formula, or of its complement, over the pairs of columns of 12 pins and a register.
pub(crate) fn put_products(
    alloc: Global,
    text: &str,
    positive: bool,
    found: &mut Found,
) -> Option<()> {
    match products(alloc, formula_of(alloc, text)?, positive) {
        Ok(list) => put_cubes(list.as_slice(), 13, found),
        Err(_) => return None,
    }
    Some(())
}

/// How many products a formula has.
pub(crate) fn put_count(alloc: Global, text: &str, found: &mut Found) -> Option<()> {
    match products(alloc, formula_of(alloc, text)?, true) {
        Ok(list) => found.number(list.len()),
        Err(LowerFault::TooWide) => found.text("TooWide"),
        Err(LowerFault::OutOfMemory) => return None,
    }
    Some(())
}

/// A bit that as a tree has more than 2 to the power of 500 leaves. Each turn makes of !a & b and of a & b the other.
fn shared(alloc: Global) -> Option<Formula> {
    let mut exprs = Exprs::new(alloc);
    let mut bit = exprs.add(Node::Leaf(Leaf::Pin(1))).ok()?;
    let other = exprs.add(Node::Leaf(Leaf::Pin(2))).ok()?;
    for _count in 0..500 {
        let less = exprs.add(Node::And(bit, bit)).ok()?;
        let more = exprs.add(Node::Or(less, other)).ok()?;
        bit = exprs.add(Node::Xor(more, less)).ok()?;
    }
    Some(Formula { exprs, bit })
}

/// A row of 200,000 operators, each of which is one deeper than the one before.
fn deep(alloc: Global) -> Option<Formula> {
    let mut exprs = Exprs::new(alloc);
    let leaf = exprs.add(Node::Leaf(Leaf::Pin(1))).ok()?;
    let mut bit = leaf;
    for _count in 0..200_000 {
        bit = exprs.add(Node::Or(bit, leaf)).ok()?;
    }
    Some(Formula { exprs, bit })
}

/// The products of a formula that is shared or deep.
pub(crate) fn put_shared(alloc: Global, text: &str, found: &mut Found) -> Option<()> {
    let list = match text {
        "500 turns" => products(alloc, shared(alloc)?, true),
        "the complement of 500 turns" => products(alloc, shared(alloc)?, false),
        _ => products(alloc, deep(alloc)?, true),
    };
    match list {
        Ok(list) => put_cubes(list.as_slice(), 2, found),
        Err(_) => return None,
    }
    Some(())
}
