//! Values in so many positions.

ghost use Rattle.std.specs.Prelude.{◌≡◌, false, ◌||◌, List, length, get_or, IfOk};
ghost use Rattle.expr_bits.specs.Prelude.{Node, arena, Formula, Word, met_word, Value, width_of, meeting, met_unknown, either_unknown};
ghost use Rattle.expr_bits.specs.{ShowsItems, HasForm, HasUnknown, IsBits};

use crate::forms::{Bits, Form};
use crate::positions::{bit_at, digit_word, resized_word, spread_word};
use bit_expr::ExprId;
use pld_base::OutOfMemory;
use std::alloc::Global;

/// How many positions two values meet in: those of a set, else one, and 32 for two numbers.
pub fn width_of_both(left: &Bits, right: &Bits) -> usize
    ensures { (v u : Value) → HasForm left.now.form v (length left.now.word) → HasForm right.now.form u (length right.now.word) → result ≡ width_of (meeting v.shape u.shape) }
{
    match left.form {
        Form::Set => left.word.as_slice().len(),
        Form::Single => match right.form {
            Form::Set => right.word.as_slice().len(),
            Form::Single => 1,
            Form::Number(_) => 1,
        },
        Form::Number(_) => match right.form {
            Form::Set => right.word.as_slice().len(),
            Form::Single => 1,
            Form::Number(_) => 32,
        },
    }
}

/// Whether a position is X; none past the last one is.
fn flag_at(unknown: &[bool], index: usize) -> bool
    ensures { result ≡ get_or unknown.now index false }
{
    match unknown.get(index) {
        Some(unknown) => *unknown,
        None => false,
    }
}

/// The bits of a value in so many positions: a number is cut or filled, one bit is spread.
pub fn meet_word(alloc: Global, value: &Bits, width: usize) -> Result<Vec<ExprId>, OutOfMemory>
    ensures shows { IfOk result (λ ids. (ns : List Node) (v : Value) (w : Word) → IsBits (arena ns) value.now v w → ShowsItems (arena ns) ids (met_word width v w)) }
    ensures width { IfOk result (λ ids. length ids.items ≡ width) }
{
    match value.form {
        Form::Number(number) => digit_word(alloc, number, width),
        Form::Single => spread_word(alloc, bit_at(value.word.as_slice(), 0), width),
        Form::Set => resized_word(alloc, value.word.as_slice(), width),
    }
}

/// The X positions of a value in so many positions.
pub(crate) fn meet_unknown(
    alloc: Global,
    value: &Bits,
    width: usize,
) -> Result<Vec<bool>, OutOfMemory>
    ensures { IfOk result (λ xs. (v : Value) → HasForm value.now.form v (length value.now.word) → HasUnknown value.now.form v value.now.unknown → xs.items ≡ met_unknown width v) }
{
    let unknown = value.unknown.as_slice();
    match value.form {
        Form::Number(_) => Ok(vec![in alloc; false; width]?),
        Form::Single => Ok(vec![in alloc; flag_at(unknown, 0); width]?),
        Form::Set => Ok(Vec::from_slice(alloc, unknown)?),
    }
}

/// Whether a position is X on either side.
fn either_at(left: &[bool], right: &[bool], index: usize) -> bool
    ensures { result ≡ (get_or left.now index false || get_or right.now index false) }
{
    flag_at(left, index) || flag_at(right, index)
}

/// The positions that are X on either side.
fn either_unknown(alloc: Global, left: &[bool], right: &[bool]) -> Result<Vec<bool>, OutOfMemory>
    ensures { IfOk result (λ xs. xs.items ≡ either_unknown left.now right.now) }
{
    let mut flags = Vec::new(alloc);
    for index in 0..left.len().max(right.len()) {
        flags.push(either_at(left, right, index))?;
    }
    Ok(flags)
}

/// The positions that a relation of two values drops.
pub fn dropped(
    alloc: Global,
    left: &Bits,
    right: &Bits,
    width: usize,
) -> Result<Vec<bool>, OutOfMemory>
    ensures { IfOk result (λ xs. (fs : List Formula) (v u : Value) (x y : Word) → IsBits fs left.now v x → IsBits fs right.now u y → xs.items ≡ either_unknown (met_unknown width v) (met_unknown width u)) }
{
    let first = meet_unknown(alloc, left, width)?;
    let second = meet_unknown(alloc, right, width)?;
    either_unknown(alloc, first.as_slice(), second.as_slice())
}
