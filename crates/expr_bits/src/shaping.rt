//! What an expression amounts to, from its bits.

ghost use Rattle.std.specs.Prelude.{◌≡◌, ◌<◌, List, length, IfOk};
ghost use Rattle.expr_bits.specs.Prelude.{Formula, Word, Value, IsShaped};
ghost use Rattle.expr_bits.specs.{IsBits, IsBlank, place_of, shown_ids, shape_of};

use crate::forms::{Bits, Form};
use bit_expr::ExprId;
use pld_base::{ListOf, OutOfMemory};
use set_expr::{Shape, Shaped};
use std::alloc::Global;

/// The shape of bits, of which there are few.
fn shape_of(bits: &Bits) -> Shape
    requires { length bits.now.word < 256 }
    ensures { result ≡ shape_of bits.now.form (length bits.now.word) }
{
    match bits.form {
        Form::Number(number) => Shape::Number(number),
        Form::Single => Shape::Single,
        Form::Set => Shape::Set(bits.word.as_slice().len() as u8),
    }
}

/// A position, None if it is X.
fn place_of(bit: ExprId, unknown: bool) -> Option<ExprId>
    ensures { result ≡ place_of bit unknown }
{
    if unknown { None } else { Some(bit) }
}

/// The positions of bits.
fn shown_ids(
    alloc: Global,
    word: &[ExprId],
    unknown: &[bool],
) -> Result<Vec<Option<ExprId>>, OutOfMemory>
    requires { length unknown.now ≡ length word.now }
    ensures { IfOk result (λ ps. ps.items ≡ shown_ids word.now unknown.now) }
{
    let mut places = Vec::new(alloc);
    for index in 0..word.len() {
        places.push(place_of(word[index], unknown[index]))?;
    }
    Ok(places)
}

/// The shape and the positions of bits, of which there are few, and which are 0 if they are X.
pub(crate) fn shaped(alloc: Global, bits: &Bits) -> Result<Shaped, OutOfMemory>
    requires few { length bits.now.word < 256 }
    requires positions { length bits.now.unknown ≡ length bits.now.word }
    ensures { IfOk result (λ s. (fs : List Formula) (v : Value) (w : Word) → IsBits fs bits.now v w → IsBlank v.unknown w → IsShaped fs s v w) }
{
    let shape = shape_of(bits);
    let places = shown_ids(alloc, bits.word.as_slice(), bits.unknown.as_slice())?;
    Ok(Shaped {
        shape,
        places: ListOf::from_vec(places),
    })
}
