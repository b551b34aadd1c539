//! Relations of two words of one width, and of what is left of both.

ghost use Rattle.std.specs.Prelude.{◌≡◌, length};
ghost use Rattle.expr_bits.specs.Prelude.{arena, kept_bits, relation_bit};
ghost use Rattle.abel_tree.specs.declared.words.Binary.TheVariants as binary;
ghost use Rattle.expr_bits.specs.{Makes, ShowsOne, AllIn, word_at, relation_steps, start_of};

use crate::pieces::{Relation, relation_step};
use crate::positions::kept_word;
use crate::word_operators::ZERO;
use abel_tree::Binary;
use bit_expr::{ExprFault, ExprId, Exprs, Node};
use std::alloc::Global;

/// What is found of two words from position 0 on.
fn found_along(
    exprs: &mut Exprs,
    relation: Relation,
    first: &[ExprId],
    second: &[ExprId],
) -> Result<ExprId, ExprFault>
    requires first { AllIn (length (arena exprs.old)) first.now }
    requires second { AllIn (length (arena exprs.old)) second.now }
    requires same { length first.now ≡ length second.now }
    ensures { Makes ShowsOne exprs.old exprs.new result (relation_steps relation (start_of relation) (word_at (arena exprs.old) first.now) (word_at (arena exprs.old) second.now)) }
{
    let mut found = relation.start();
    for i in 0..first.len() {
        found = relation_step(exprs, relation, first[i], second[i], found)?;
    }
    Ok(found)
}

/// `x == y`, from the leftmost position on.
fn equal_word(
    alloc: Global,
    exprs: &mut Exprs,
    first: &[ExprId],
    second: &[ExprId],
) -> Result<ExprId, ExprFault>
    requires first { AllIn (length (arena exprs.old)) first.now }
    requires second { AllIn (length (arena exprs.old)) second.now }
    requires same { length first.now ≡ length second.now }
    ensures { Makes ShowsOne exprs.old exprs.new result (relation_bit binary.Equal (word_at (arena exprs.old) first.now) (word_at (arena exprs.old) second.now)) }
{
    let mut xs = Vec::from_slice(alloc, first)?;
    xs.reverse();
    let mut ys = Vec::from_slice(alloc, second)?;
    ys.reverse();
    found_along(exprs, Relation::Equal, xs.as_slice(), ys.as_slice())
}

/// How two words of one width compare, as one bit; 0 if the sign is no relation's.
pub fn relation_word(
    alloc: Global,
    exprs: &mut Exprs,
    sign: Binary,
    first: &[ExprId],
    second: &[ExprId],
) -> Result<ExprId, ExprFault>
    requires first { AllIn (length (arena exprs.old)) first.now }
    requires second { AllIn (length (arena exprs.old)) second.now }
    requires same { length first.now ≡ length second.now }
    ensures { Makes ShowsOne exprs.old exprs.new result (relation_bit sign (word_at (arena exprs.old) first.now) (word_at (arena exprs.old) second.now)) }
{
    match sign {
        Binary::Equal => equal_word(alloc, exprs, first, second),
        Binary::Unequal => {
            let equal = equal_word(alloc, exprs, first, second)?;
            exprs.add(Node::Not(equal))
        }
        Binary::Less => found_along(exprs, Relation::Less, first, second),
        Binary::Greater => found_along(exprs, Relation::Less, second, first),
        Binary::LessEqual => {
            let greater = found_along(exprs, Relation::Less, second, first)?;
            exprs.add(Node::Not(greater))
        }
        Binary::GreaterEqual => {
            let less = found_along(exprs, Relation::Less, first, second)?;
            exprs.add(Node::Not(less))
        }
        _ => Ok(ZERO),
    }
}

/// Two words of one width, and the positions that a relation drops from both.
#[derive(Clone, Copy)]
pub struct Compared<'a> {
    pub dropped: &'a [bool],
    pub first: &'a [ExprId],
    pub second: &'a [ExprId],
}

/// How two words compare without the positions that are dropped, as one bit.
pub fn kept_relation(
    alloc: Global,
    exprs: &mut Exprs,
    sign: Binary,
    words: &Compared<'_>,
) -> Result<ExprId, ExprFault>
    requires first { AllIn (length (arena exprs.old)) words.now.first.now }
    requires second { AllIn (length (arena exprs.old)) words.now.second.now }
    requires same { length words.now.first.now ≡ length words.now.second.now }
    ensures { Makes ShowsOne exprs.old exprs.new result (relation_bit sign
        (kept_bits words.now.dropped.now (word_at (arena exprs.old) words.now.first.now))
        (kept_bits words.now.dropped.now (word_at (arena exprs.old) words.now.second.now))) }
{
    let xs = kept_word(alloc, words.dropped, words.first)?;
    let ys = kept_word(alloc, words.dropped, words.second)?;
    relation_word(alloc, exprs, sign, xs.as_slice(), ys.as_slice())
}
