//! The lists below a bit made before its own, so that no call goes as deep as a formula: operands first, each once in a
//! polarity, and let go after its last use.

ghost use Rattle.std.specs.Prelude.{◌≡◌, ◌≤◌, ◌⊎◌, ◌+◌, IfOk, IfSome, OnOk, All, vec_len};
ghost use Rattle.sop_lowering.specs.declared.kept.SignedBit.{SignedBit};
ghost use Rattle.sop_lowering.specs.Keeping.{AreRight, IsWide, Leads, StepsLead, signed_list};
ghost use Rattle.sop_lowering.specs.Lowering.{CanLower, IsList};
ghost use Rattle.sop_lowering.specs.Written.{bit_list};

use crate::fault::LowerFault;
use crate::kept::{Kept, SignedBit, signed};
use crate::lowering::{list_now, turned};
use crate::uses::Uses;
use bit_expr::{ExprId, Leaf, Netlist, Node};
use covers::Cube;
use std::alloc::{AllocError, Global};

/// How many lists one list is made of at most.
const OPERANDS: u8 = 4;

/// The first of one.
fn of_one(index: u8, id: ExprId, positive: bool) -> Option<SignedBit>
    ensures { IfSome result (λ bit. bit ≡ record { id = id; positive = positive }) }
{
    if index == 0 {
        Some(signed(id, positive))
    } else {
        None
    }
}

/// The first or second of two in one polarity.
fn of_two(index: u8, a: ExprId, b: ExprId, positive: bool) -> Option<SignedBit>
    ensures { IfSome result (λ bit. (bit ≡ record { id = a; positive = positive }) ⊎ (bit ≡ record { id = b; positive = positive })) }
{
    match index {
        0 => Some(signed(a, positive)),
        1 => Some(signed(b, positive)),
        _ => None,
    }
}

/// The first to fourth of two in both polarities.
fn of_four(index: u8, a: ExprId, b: ExprId) -> Option<SignedBit>
    ensures { IfSome result (λ bit. (bit.id ≡ a) ⊎ (bit.id ≡ b)) }
{
    if index < 2 {
        of_two(index, a, b, true)
    } else {
        of_two(index - 2, a, b, false)
    }
}

/// A bit of whose list the list of this one is made, by number from 0.
fn operand(net: &Netlist, bit: SignedBit, index: u8) -> Option<SignedBit>
    requires { CanLower net.now bit.id }
    ensures { IfSome result (Leads net.now bit) }
{
    match net.exprs.get(bit.id) {
        Node::Leaf(Leaf::Node(node)) => {
            let function = net.nodes.as_slice()[node as usize];
            of_one(
                index,
                function.one,
                turned(function.complement, bit.positive),
            )
        }
        Node::Not(a) => of_one(index, a, !bit.positive),
        Node::And(a, b) => of_two(index, a, b, bit.positive),
        Node::Or(a, b) => of_two(index, a, b, bit.positive),
        Node::Xor(a, b) => of_four(index, a, b),
        _ => None,
    }
}

/// What is still to be done about a bit: to walk those below it, or, after them, to make its list.
#[derive(Clone, Copy)]
enum Step {
    Walk(SignedBit),
    Make(SignedBit),
}

/// Puts onto the stack that a bit is made after its operands, the first of which is on top.
fn put_steps(net: &Netlist, bit: SignedBit, stack: &mut Vec<Step>) -> Result<(), AllocError>
    requires { CanLower net.now bit.id }
    ensures lead { (root : SignedBit) → Leads net.now root bit → StepsLead net.now root stack.old.items
        → OnOk result (StepsLead net.now root stack.new.items) }
    ensures few { OnOk result (vec_len stack.new ≤ vec_len stack.old + 5) }
{
    stack.push(Step::Make(bit))?;
    for index in (0..OPERANDS).rev() {
        if let Some(operand) = operand(net, bit, index) {
            stack.push(Step::Walk(operand))?;
        }
    }
    Ok(())
}

/// The bits whose lists the list of a root is made of, and the root, each once and after its operands. Counts how often
/// each is used.
fn order_below(
    alloc: Global,
    net: &Netlist,
    uses: &mut Uses,
    root: SignedBit,
) -> Result<Vec<SignedBit>, AllocError>
    requires { CanLower net.now root.id }
    ensures { IfOk result (λ bits. All (Leads net.now root) bits.items) }
{
    let mut order = Vec::new(alloc);
    let mut stack = Vec::new(alloc);
    stack.push(Step::Walk(root))?;
    'steps: while let Some(step) = stack.pop() {
        match step {
            Step::Make(bit) => order.push(bit)?,
            Step::Walk(bit) => {
                if uses.add(bit) {
                    put_steps(net, bit, &mut stack)?;
                }
            }
        }
    }
    Ok(order)
}

/// Lets the lists of operands go that have no further use.
fn let_go(net: &Netlist, uses: &mut Uses, kept: &mut Kept, bit: SignedBit)
    requires can { CanLower net.now bit.id }
    requires right { AreRight net.now kept.old }
    ensures right { AreRight net.now kept.new }
{
    for index in 0..OPERANDS {
        if let Some(operand) = operand(net, bit, index) {
            if uses.take(operand) {
                kept.put(operand, None);
            }
        }
    }
}

/// Makes the list of a bit and keeps it.
fn keep(
    alloc: Global,
    net: &Netlist,
    uses: &mut Uses,
    kept: &mut Kept,
    bit: SignedBit,
) -> Result<(), LowerFault>
    requires can { CanLower net.now bit.id }
    requires right { AreRight net.now kept.old }
    ensures right { OnOk result (AreRight net.now kept.new) }
    ensures wide { IsWide result (signed_list net.now bit) }
{
    let rows = list_now(alloc, net, kept, bit)?;
    kept.put(bit, Some(rows));
    let_go(net, uses, kept, bit);
    Ok(())
}

/// Makes and keeps the lists below a bit, and its own.
fn make_ahead(
    alloc: Global,
    net: &Netlist,
    uses: &mut Uses,
    kept: &mut Kept,
    root: SignedBit,
) -> Result<(), LowerFault>
    requires can { CanLower net.now root.id }
    requires right { AreRight net.now kept.old }
    ensures right { OnOk result (AreRight net.now kept.new) }
    ensures wide { IsWide result (signed_list net.now root) }
{
    let order = order_below(alloc, net, uses, root)?;
    for bit in order.as_slice() {
        keep(alloc, net, uses, kept, *bit)?;
    }
    Ok(())
}

/// One more than the greatest id that is reached.
fn ids_reached(net: &Netlist, id: ExprId) -> usize {
    let mut greatest = id.0;
    for function in net.nodes.as_slice() {
        greatest = greatest.max(function.one.0);
    }
    greatest.saturating_add(1)
}

/// The written products of a bit in a polarity, nodes by their functions with any as 0, over the pairs of columns as
/// variables. TooWide is answered just if a list on the way would pass 1,024 products. No call goes as deep as the
/// formula, and a bit that is shared is lowered once in a polarity.
pub fn lower(
    alloc: Global,
    net: &Netlist,
    id: ExprId,
    positive: bool,
) -> Result<Vec<Cube>, LowerFault>
    requires { CanLower net.now id }
    ensures list { IsList (λ r. r.items) result (bit_list net.now id positive) }
    ensures few { IfOk result (λ r. vec_len r ≤ 1024) }
{
    let bit = signed(id, positive);
    let ids = ids_reached(net, id);
    let mut uses = Uses::for_ids(alloc, ids)?;
    let mut kept = Kept::for_ids(alloc, ids)?;
    make_ahead(alloc, net, &mut uses, &mut kept, bit)?;
    list_now(alloc, net, &kept, bit)
}
