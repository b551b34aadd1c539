//! Words of the positions of others, without any node.

ghost use Rattle.std.specs.Prelude.{◌≡◌, get_or, replicate, IfOk};
ghost use Rattle.expr_bits.specs.{bit_id, digit_ids, kept_ids, resized_ids};

use crate::word_operators::{ONE, ZERO};
use bit_expr::ExprId;
use pld_base::OutOfMemory;
use std::alloc::Global;

/// The id of a constant.
fn constant(on: bool) -> ExprId
    ensures { result ≡ bit_id on }
{
    if on { ONE } else { ZERO }
}

/// The bit at a position; 0 past the last one.
pub(crate) fn bit_at(word: &[ExprId], index: usize) -> ExprId
    ensures { result ≡ get_or word.now index (record { 0 = 0 }) }
{
    match word.get(index) {
        Some(id) => *id,
        None => ZERO,
    }
}

/// One bit in each of so many positions.
pub fn spread_word(alloc: Global, bit: ExprId, width: usize) -> Result<Vec<ExprId>, OutOfMemory>
    ensures { IfOk result (λ ids. ids.items ≡ replicate width bit) }
{
    let ids = vec![in alloc; bit; width]?;
    Ok(ids)
}

/// The digits of a number in so many positions.
pub fn digit_word(alloc: Global, number: u32, width: usize) -> Result<Vec<ExprId>, OutOfMemory>
    ensures { IfOk result (λ ids. ids.items ≡ digit_ids width number) }
{
    let mut ids = Vec::new(alloc);
    let mut rest = number;
    for index in 0..width {
        ids.push(constant(rest % 2 == 1))?;
        rest /= 2;
    }
    Ok(ids)
}

/// A word in so many positions, filled with 0.
pub fn resized_word(
    alloc: Global,
    word: &[ExprId],
    width: usize,
) -> Result<Vec<ExprId>, OutOfMemory>
    ensures { IfOk result (λ ids. ids.items ≡ resized_ids width word.now) }
{
    let mut ids = Vec::new(alloc);
    for index in 0..width {
        ids.push(bit_at(word, index))?;
    }
    Ok(ids)
}

/// The positions that are not dropped.
pub fn kept_word(
    alloc: Global,
    dropped: &[bool],
    word: &[ExprId],
) -> Result<Vec<ExprId>, OutOfMemory>
    ensures { IfOk result (λ ids. ids.items ≡ kept_ids dropped.now word.now) }
{
    let mut ids = Vec::new(alloc);
    for index in 0..word.len().min(dropped.len()) {
        if !dropped[index] {
            ids.push(word[index])?;
        }
    }
    Ok(ids)
}
