//! The list of a bit, made of kept lists and, if one is not kept, of lists made on the way.
//!
//! Names: `turns` is the number of nodes that a chain from here may still pass.

ghost use Rattle.std.specs.Prelude.{◌≡◌, ◌<◌, ◌≤◌, ◌∷◌, [], vec_len, length, IfOk, Some};
ghost use Rattle.sop_lowering.specs.Prelude.{complement_if, Read, literal_cube};
ghost use Rattle.bit_expr.specs.declared.node.Leaf.TheVariants as leaf;
ghost use Rattle.sop_lowering.specs.Keeping.{AreRight, CanReach, signed_list};
ghost use Rattle.sop_lowering.specs.Lowering.{CanLower, HasPair, IsList};
ghost use Rattle.sop_lowering.specs.Products.{product_of, sum_of};
ghost use Rattle.sop_lowering.specs.Through.{ReachesThrough};
ghost use Rattle.sop_lowering.specs.Written.{bit_list, constant_list, written};

use crate::fault::LowerFault;
use crate::inserting::{product_list, sum_list};
use crate::kept::{Kept, SignedBit, signed};
use bit_expr::{ExprId, Leaf, Netlist, Node};
use covers::Cube;
use std::alloc::Global;

/// The list of a constant.
fn constant(alloc: Global, level: bool) -> Result<Vec<Cube>, LowerFault>
    ensures list { IsList (λ r. r.items) result (constant_list level) }
    ensures few { IfOk result (λ r. vec_len r ≤ 1024) }
{
    let mut rows = Vec::new(alloc);
    if level {
        rows.push(Cube::full())?;
    }
    Ok(rows)
}

/// The list of a literal.
fn literal(alloc: Global, variable: u8, positive: bool) -> Result<Vec<Cube>, LowerFault>
    requires { variable < 22 }
    ensures list { IsList (λ r. r.items) result (Some (literal_cube variable positive ∷ [])) }
    ensures few { IfOk result (λ r. vec_len r ≤ 1024) }
{
    let mut rows = Vec::new(alloc);
    rows.push(Cube::literal(variable, positive))?;
    Ok(rows)
}

/// The polarity after a complement that may be there.
pub(crate) fn turned(complement: bool, positive: bool) -> bool
    ensures { result ≡ complement_if complement positive }
{
    if complement { !positive } else { positive }
}

/// What lists are made of: the netlist, and the lists that are kept of its bits, all of them right.
#[derive(Drop)]
struct Making<'a> {
    alloc: Global,
    net: &'a Netlist,
    kept: &'a Kept,
    ghost right: { AreRight net.now kept.now },
}

/// The list of a bit in a polarity, kept or made.
#[cycle(lowering)]
fn kept_or_made(of: &Making, turns: usize, bit: SignedBit) -> Result<Vec<Cube>, LowerFault>
    requires reach { CanReach of.now.net.now turns bit.id }
    ensures list { IsList (λ r. r.items) result (signed_list of.now.net.now bit) }
    ensures few { IfOk result (λ r. vec_len r ≤ 1024) }
{
    match of.kept.copy(bit)? {
        Some(rows) => Ok(rows),
        None => made(of, turns, bit),
    }
}

/// The list of a bit in a polarity, made of the lists of its operands.
#[cycle(lowering)]
fn made(of: &Making, turns: usize, bit: SignedBit) -> Result<Vec<Cube>, LowerFault>
    requires reach { CanReach of.now.net.now turns bit.id }
    ensures list { IsList (λ r. r.items) result (signed_list of.now.net.now bit) }
    ensures few { IfOk result (λ r. vec_len r ≤ 1024) }
{
    let SignedBit { id, positive } = bit;
    match of.net.exprs.get(id) {
        Node::Const(level) => constant(of.alloc, level == positive),
        Node::Leaf(Leaf::Pin(pin)) => literal(of.alloc, of.net.pair_of_pin[pin as usize], positive),
        Node::Leaf(Leaf::Q(cell)) => literal(
            of.alloc,
            of.net.pair_of_cell[cell as usize],
            positive,
        ),
        Node::Leaf(Leaf::Node(node)) => node_list(of, turns, node, positive),
        Node::Not(a) => kept_or_made(of, turns, signed(a, !positive)),
        Node::And(a, b) => {
            if positive {
                product(of, turns, signed(a, true), signed(b, true))
            } else {
                sum(of, turns, signed(a, false), signed(b, false))
            }
        }
        Node::Or(a, b) => {
            if positive {
                sum(of, turns, signed(a, true), signed(b, true))
            } else {
                product(of, turns, signed(a, false), signed(b, false))
            }
        }
        Node::Xor(a, b) => {
            let first = product(of, turns, signed(a, true), signed(b, !positive))?;
            let second = product(of, turns, signed(a, false), signed(b, positive))?;
            sum_list(first, &second)
        }
    }
}

/// The list of the product of two bits, each in a polarity.
#[cycle(lowering)]
fn product(of: &Making, turns: usize, a: SignedBit, b: SignedBit) -> Result<Vec<Cube>, LowerFault>
    requires a { CanReach of.now.net.now turns a.id }
    requires b { CanReach of.now.net.now turns b.id }
    ensures list { IsList (λ r. r.items) result (product_of (signed_list of.now.net.now a) (signed_list of.now.net.now b)) }
    ensures few { IfOk result (λ r. vec_len r ≤ 1024) }
{
    let first = kept_or_made(of, turns, a)?;
    let second = kept_or_made(of, turns, b)?;
    product_list(of.alloc, &first, &second)
}

/// The list of the sum of two bits, each in a polarity.
#[cycle(lowering)]
fn sum(of: &Making, turns: usize, a: SignedBit, b: SignedBit) -> Result<Vec<Cube>, LowerFault>
    requires a { CanReach of.now.net.now turns a.id }
    requires b { CanReach of.now.net.now turns b.id }
    ensures list { IsList (λ r. r.items) result (sum_of (signed_list of.now.net.now a) (signed_list of.now.net.now b)) }
    ensures few { IfOk result (λ r. vec_len r ≤ 1024) }
{
    let first = kept_or_made(of, turns, a)?;
    let second = kept_or_made(of, turns, b)?;
    sum_list(first, &second)
}

/// The list of a node: that of its function with any as 0.
#[cycle(lowering)]
fn node_list(of: &Making, turns: usize, node: u8, positive: bool) -> Result<Vec<Cube>, LowerFault>
    requires reach { ReachesThrough of.now.net.now (HasPair of.now.net.now) turns node }
    requires turns { turns ≤ length of.now.net.now.nodes }
    ensures list { IsList (λ r. r.items) result (written of.now.net.now (Read (leaf.Node node)) positive) }
    ensures few { IfOk result (λ r. vec_len r ≤ 1024) }
{
    if turns == 0 {
        return Ok(Vec::new(of.alloc));
    }
    let function = of.net.nodes.as_slice()[node as usize];
    let bit = SignedBit {
        id: function.one,
        positive: turned(function.complement, positive),
    };
    kept_or_made(of, turns - 1, bit)
}

/// Makes the list of a bit in a polarity, of the lists that are kept.
pub(crate) fn list_now(
    alloc: Global,
    net: &Netlist,
    kept: &Kept,
    bit: SignedBit,
) -> Result<Vec<Cube>, LowerFault>
    requires can { CanLower net.now bit.id }
    requires right { AreRight net.now kept.now }
    ensures list { IsList (λ r. r.items) result (bit_list net.now bit.id bit.positive) }
    ensures few { IfOk result (λ r. vec_len r ≤ 1024) }
{
    let of = Making { alloc, net, kept };
    kept_or_made(&of, net.nodes.as_slice().len(), bit)
}
