//! Operators that go along two words, position by position.

ghost use Rattle.std.specs.Prelude.{◌≡◌, ◌<◌, length};
ghost use Rattle.expr_bits.specs.Prelude.{arena, formula_at};
ghost use Rattle.expr_bits.specs.{step_by, along, Makes, ShowsTwo, ShowsItems, AllIn, word_at};

use crate::pieces::{next_carry, same_bit, sum_bit};
use bit_expr::{ExprFault, ExprId, Exprs, Node};
use std::alloc::Global;

/// What is made at each position.
#[derive(Clone, Copy, PartialEq, Eq)]
pub(crate) enum Step {
    Not,
    And,
    Or,
    Xor,
    Xnor,
    Sum,
}

/// What is made along two words, and what is carried to their first position.
#[derive(Clone, Copy)]
pub(crate) struct Sweep {
    pub step: Step,
    pub carry: ExprId,
}

/// The bits of two words at one position, and what is carried to it.
#[derive(Clone, Copy)]
struct Column {
    x: ExprId,
    y: ExprId,
    carry: ExprId,
}

/// One position, with what goes on to the next; no carry leaves the last position of a sum.
fn step_by(
    exprs: &mut Exprs,
    step: Step,
    last: bool,
    column: Column,
) -> Result<(ExprId, ExprId), ExprFault>
    requires x { column.x.0 < length (arena exprs.old) }
    requires y { column.y.0 < length (arena exprs.old) }
    requires carry { column.carry.0 < length (arena exprs.old) }
    ensures { Makes ShowsTwo exprs.old exprs.new result (step_by step last
        (formula_at (arena exprs.old) column.x) (formula_at (arena exprs.old) column.y)
        (formula_at (arena exprs.old) column.carry)) }
{
    let Column { x, y, carry } = column;
    match step {
        Step::Not => {
            let bit = exprs.add(Node::Not(x))?;
            Ok((bit, carry))
        }
        Step::And => {
            let bit = exprs.add(Node::And(x, y))?;
            Ok((bit, carry))
        }
        Step::Or => {
            let bit = exprs.add(Node::Or(x, y))?;
            Ok((bit, carry))
        }
        Step::Xor => {
            let bit = exprs.add(Node::Xor(x, y))?;
            Ok((bit, carry))
        }
        Step::Xnor => {
            let bit = same_bit(exprs, x, y)?;
            Ok((bit, carry))
        }
        Step::Sum => {
            let bit = sum_bit(exprs, x, y, carry)?;
            if last {
                return Ok((bit, carry));
            }
            let next = next_carry(exprs, x, y, carry)?;
            Ok((bit, next))
        }
    }
}

/// An operator, position 0 first.
pub(crate) fn along(
    alloc: Global,
    exprs: &mut Exprs,
    sweep: Sweep,
    first: &[ExprId],
    second: &[ExprId],
) -> Result<Vec<ExprId>, ExprFault>
    requires carry { sweep.carry.0 < length (arena exprs.old) }
    requires first { AllIn (length (arena exprs.old)) first.now }
    requires second { AllIn (length (arena exprs.old)) second.now }
    requires same { length first.now ≡ length second.now }
    ensures { Makes ShowsItems exprs.old exprs.new result (along sweep.step
        (formula_at (arena exprs.old) sweep.carry)
        (word_at (arena exprs.old) first.now) (word_at (arena exprs.old) second.now)) }
{
    let mut found = Vec::new(alloc);
    let mut carry = sweep.carry;
    for i in 0..first.len() {
        let column = Column {
            x: first[i],
            y: second[i],
            carry,
        };
        let made = step_by(exprs, sweep.step, i + 1 == first.len(), column)?;
        found.push(made.0)?;
        carry = made.1;
    }
    Ok(found)
}
