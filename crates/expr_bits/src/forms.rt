//! A value as its bits: numbers and single bits.

ghost use Rattle.std.specs.Prelude.{◌≡◌, List, [], ◌∷◌, IfOk};
ghost use Rattle.expr_bits.specs.Prelude.{Formula, Number, Value};
ghost use Rattle.abel_meaning.specs.Numbers as number;
ghost use Rattle.expr_bits.specs.{ShowsOne, IsBits};

use bit_expr::ExprId;
use pld_base::{ListOf, OutOfMemory};
use std::alloc::Global;

/// A number without a width, one bit, or a set of bits.
#[derive(Clone, Copy, PartialEq, Eq)]
pub enum Form {
    Number(u32),
    Single,
    Set,
}

/// A value with its positions, the rightmost first: the bit of each, 0 at X, and whether it is X. A number has no
/// position, one bit has one, and a set as many as it is wide.
#[derive(Drop)]
pub struct Bits {
    pub form: Form,
    pub word: ListOf<ExprId>,
    pub unknown: ListOf<bool>,
}

/// A number without a width. Takes no memory.
pub fn number_bits(alloc: Global, number: u32) -> Bits
    ensures { (fs : List Formula) (v : Value) → v.shape ≡ Number → v.number ≡ number → IsBits fs result v [] }
{
    Bits {
        form: Form::Number(number),
        word: ListOf::from_vec(Vec::new(alloc)),
        unknown: ListOf::from_vec(Vec::new(alloc)),
    }
}

/// One bit, X or not.
pub fn one_bit(alloc: Global, bit: ExprId, unknown: bool) -> Result<Bits, OutOfMemory>
    ensures { IfOk result (λ b. (fs : List Formula) (f : Formula) (v : Value) → v.shape ≡ number.Single → v.unknown ≡ unknown ∷ [] → ShowsOne fs bit f → IsBits fs b v (f ∷ [])) }
{
    let word = vec![in alloc; bit]?;
    let flags = vec![in alloc; unknown]?;
    Ok(Bits {
        form: Form::Single,
        word: ListOf::from_vec(word),
        unknown: ListOf::from_vec(flags),
    })
}
