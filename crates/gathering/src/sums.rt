//! Bits that are made of the contributions to a signal.

ghost use Rattle.std.specs.Prelude.{◌≡◌, ◌<◌, length, IfOk, OnOk, if◌then◌else◌};
ghost use Rattle.gathering.specs.Prelude.{arena, formula_at, make_or, view_contribution};
ghost use Rattle.gathering.specs.{contributions_in, is_for, AllLieIn, Stands, Throughout, part_sum, bit_of};

use crate::given::is_free;
use crate::parts::{Part, is_for};
use bit_expr::{ExprId, Exprs, Node};
use pld_base::OutOfMemory;
use set_expr::{Contribution, Gives};

/// A sum with the bit of one more contribution, if that is for the part.
fn with_one(
    exprs: &mut Exprs,
    sum: ExprId,
    part: Part,
    signal: usize,
    given: &Contribution,
) -> Result<ExprId, OutOfMemory>
    requires sum { sum.0 < length (arena exprs.old) }
    requires bit { given.now.when.0 < length (arena exprs.old) }
    ensures sum { IfOk result (λ id. formula_at (arena exprs.new) id
        ≡ (if is_for part signal (view_contribution (arena exprs.old) given.now)
        then (make_or (formula_at (arena exprs.old) sum) (formula_at (arena exprs.old) given.now.when)).what
        else formula_at (arena exprs.old) sum)) }
    ensures inside { IfOk result (λ id. id.0 < length (arena exprs.new)) }
    ensures stands { OnOk result (Stands (arena exprs.old) (arena exprs.new)) }
{
    if is_for(part, signal, given) {
        exprs.add_more(Node::Or(sum, given.when))
    } else {
        Ok(sum)
    }
}

/// The sum of the bits of all contributions that are for the part.
fn part_sum(
    exprs: &mut Exprs,
    list: &[Contribution],
    signal: usize,
    part: Part,
) -> Result<ExprId, OutOfMemory>
    requires { AllLieIn (length (arena exprs.old)) list.now }
    ensures sum { IfOk result (λ id. Throughout (arena exprs.old) (arena exprs.new) list.now (λ first last.
        formula_at last id ≡ part_sum part signal (contributions_in first list.now))) }
    ensures inside { IfOk result (λ id. id.0 < length (arena exprs.new)) }
    ensures stands { OnOk result (Stands (arena exprs.old) (arena exprs.new)) }
{
    let mut sum = ExprId(0);
    for given in list {
        sum = with_one(exprs, sum, part, signal, given)?;
    }
    Ok(sum)
}

/// How a bit is made, from the last step to the first; what follows the last one is 0.
#[derive(Clone, Copy, PartialEq, Eq)]
pub enum Step {
    /// It holds if a contribution for the part does, and where what follows does.
    Or(Part),
    /// The complement of what follows if that is asked for, else what follows.
    NotIf(bool),
    /// Where don't-care tables and diagrams alone assign the signal, it holds if none of them matches; else it is
    /// what follows.
    Unmatched,
}

/// The bit that is made by the steps.
pub(crate) fn bit_of(
    exprs: &mut Exprs,
    list: &[Contribution],
    signal: usize,
    steps: &[Step],
) -> Result<ExprId, OutOfMemory>
    requires { AllLieIn (length (arena exprs.old)) list.now }
    ensures bit { IfOk result (λ id. Throughout (arena exprs.old) (arena exprs.new) list.now (λ first last.
        formula_at last id ≡ bit_of steps.now signal (contributions_in first list.now))) }
    ensures inside { IfOk result (λ id. id.0 < length (arena exprs.new)) }
    ensures stands { OnOk result (Stands (arena exprs.old) (arena exprs.new)) }
{
    match steps {
        [] => Ok(ExprId(0)),
        [first, rest @ ..] => match *first {
            Step::Or(part) => {
                let sum = part_sum(exprs, list, signal, part)?;
                let behind = bit_of(exprs, list, signal, rest)?;
                exprs.add_more(Node::Or(sum, behind))
            }
            Step::NotIf(complement) => {
                let behind = bit_of(exprs, list, signal, rest)?;
                if complement {
                    exprs.add_more(Node::Not(behind))
                } else {
                    Ok(behind)
                }
            }
            Step::Unmatched => {
                if is_free(list, signal) {
                    let matches = part_sum(exprs, list, signal, Part::Data(Gives::Match))?;
                    exprs.add_more(Node::Not(matches))
                } else {
                    bit_of(exprs, list, signal, rest)
                }
            }
        },
    }
}
