//! The bits of a value that meets so many signals.

ghost use Rattle.std.specs.Prelude.{◌≡◌, List, get_or, IfOk};
ghost use Rattle.section_targets.specs.Prelude.{Node, arena, Value, IsShaped};
ghost use Rattle.abel_meaning.specs.BitWords.{Word};
ghost use Rattle.abel_meaning.specs.FormulaBits.{met_word};
ghost use Rattle.section_targets.specs.{AreBits, known_ids};

use bit_expr::ExprId;
use expr_bits::{digit_word, resized_word, spread_word};
use pld_base::OutOfMemory;
use set_expr::{Shape, Shaped};
use std::alloc::{AllocError, Global};

/// The ids of positions, that of 0 at X.
fn known_word(alloc: Global, places: &[Option<ExprId>]) -> Result<Vec<ExprId>, AllocError>
    ensures { IfOk result (λ ids. ids.items ≡ known_ids places.now) }
{
    places
        .iter()
        .map(|place| place.unwrap_or(ExprId(0)))
        .collect(alloc)
}

/// The rightmost bit, 0 if there isn't one.
fn first_bit(word: &[ExprId]) -> ExprId
    ensures { result ≡ get_or word.now 0 (record { 0 = 0 }) }
{
    word.first().copied().unwrap_or(ExprId(0))
}

/// The bits of a value in so many positions, the rightmost first: a number is cut or filled, one bit is spread.
pub fn meet(alloc: Global, value: &Shaped, width: usize) -> Result<Vec<ExprId>, OutOfMemory>
    ensures { IfOk result (λ ids. (ns : List Node) (v : Value) (w : Word) → IsShaped (arena ns) value.now v w → AreBits (arena ns) ids.items (met_word width v w)) }
{
    let word = known_word(alloc, value.places.as_slice())?;
    match value.shape {
        Shape::Number(number) => digit_word(alloc, number, width),
        Shape::Single => spread_word(alloc, first_bit(&word), width),
        Shape::Set(_) => resized_word(alloc, &word, width),
    }
}
