//! Operators on words of one width.

ghost use Rattle.std.specs.Prelude.{◌≡◌, length};
ghost use Rattle.expr_bits.specs.Prelude.{arena, each_not, difference_bits, operator_bits, unary_word};
ghost use Rattle.expr_bits.specs.{step_of, Makes, ShowsItems, AllIn, word_at};

use crate::positions::spread_word;
use crate::steps::{Step, Sweep, along};
use abel_tree::{Binary, Unary};
use bit_expr::{ExprFault, ExprId, Exprs};
use std::alloc::Global;

/// The ids of the constants, which are in every arena.
pub(crate) const ZERO: ExprId = ExprId(0);

pub(crate) const ONE: ExprId = ExprId(1);

/// The complement of each position.
pub fn complement_word(
    alloc: Global,
    exprs: &mut Exprs,
    word: &[ExprId],
) -> Result<Vec<ExprId>, ExprFault>
    requires { AllIn (length (arena exprs.old)) word.now }
    ensures { Makes ShowsItems exprs.old exprs.new result (each_not (word_at (arena exprs.old) word.now)) }
{
    let sweep = Sweep {
        step: Step::Not,
        carry: ZERO,
    };
    along(alloc, exprs, sweep, word, word)
}

/// The first word less the second, as the first with the second's complement and 1.
pub fn difference_word(
    alloc: Global,
    exprs: &mut Exprs,
    first: &[ExprId],
    second: &[ExprId],
) -> Result<Vec<ExprId>, ExprFault>
    requires first { AllIn (length (arena exprs.old)) first.now }
    requires second { AllIn (length (arena exprs.old)) second.now }
    requires same { length first.now ≡ length second.now }
    ensures { Makes ShowsItems exprs.old exprs.new result (difference_bits (word_at (arena exprs.old) first.now) (word_at (arena exprs.old) second.now)) }
{
    let complement = complement_word(alloc, exprs, second)?;
    let sweep = Sweep {
        step: Step::Sum,
        carry: ONE,
    };
    along(alloc, exprs, sweep, first, complement.as_slice())
}

/// The complement of each position, or two's complement.
pub fn unary_word(
    alloc: Global,
    exprs: &mut Exprs,
    sign: Unary,
    word: &[ExprId],
) -> Result<Vec<ExprId>, ExprFault>
    requires { AllIn (length (arena exprs.old)) word.now }
    ensures { Makes ShowsItems exprs.old exprs.new result (unary_word sign (word_at (arena exprs.old) word.now)) }
{
    match sign {
        Unary::Not => complement_word(alloc, exprs, word),
        Unary::Minus => {
            let none = spread_word(alloc, ZERO, word.len())?;
            difference_word(alloc, exprs, none.as_slice(), word)
        }
    }
}

/// The step by which an operator goes along two words with nothing carried to the first position, if it is one that does.
fn step_of(sign: Binary) -> Option<Step>
    ensures { result ≡ step_of sign }
{
    match sign {
        Binary::And => Some(Step::And),
        Binary::Or => Some(Step::Or),
        Binary::Xor => Some(Step::Xor),
        Binary::Xnor => Some(Step::Xnor),
        Binary::Plus => Some(Step::Sum),
        _ => None,
    }
}

/// What an operator makes of two words: `+`, `-`, `&`, `#`, `$` or `!$`; each other one makes zeros.
pub fn operator_word(
    alloc: Global,
    exprs: &mut Exprs,
    sign: Binary,
    first: &[ExprId],
    second: &[ExprId],
) -> Result<Vec<ExprId>, ExprFault>
    requires first { AllIn (length (arena exprs.old)) first.now }
    requires second { AllIn (length (arena exprs.old)) second.now }
    requires same { length first.now ≡ length second.now }
    ensures { Makes ShowsItems exprs.old exprs.new result (operator_bits sign (word_at (arena exprs.old) first.now) (word_at (arena exprs.old) second.now)) }
{
    match sign {
        Binary::Minus => difference_word(alloc, exprs, first, second),
        _ => match step_of(sign) {
            Some(step) => along(alloc, exprs, Sweep { step, carry: ZERO }, first, second),
            None => Ok(spread_word(alloc, ZERO, first.len())?),
        },
    }
}
