//! Why parsing stopped.

use abel_lexer::Token;
use pld_base::OutOfMemory;
use std::alloc::{AllocError, AllocFailed};

/// Why parsing stopped, and the tokens that are left.
#[derive(Drop)]
pub enum Halt<'a> {
    /// Memory ran out.
    Memory,
    /// The next token, or the end of them, can't be here.
    Syntax(&'a [Token]),
    /// The next token opens one nesting too many.
    TooDeep(&'a [Token]),
}

impl From<AllocError> for Halt<'_> {
    ghost use Rattle.std.specs.Prelude.{◌≡◌};
    ghost use Rattle.abel_grammar.specs.declared.halt.Halt.TheVariants.{Memory};

    ghost from_gives = { λ _ e. e ≡ Memory };

    fn from(_error: AllocError) -> Self {
        Halt::Memory
    }
}

impl<T: Drop> From<AllocFailed<T>> for Halt<'_> {
    ghost use Rattle.std.specs.Prelude.{◌≡◌};
    ghost use Rattle.abel_grammar.specs.declared.halt.Halt.TheVariants.{Memory};

    ghost from_gives = { λ _ e. e ≡ Memory };

    fn from(_error: AllocFailed<T>) -> Self {
        Halt::Memory
    }
}

impl From<OutOfMemory> for Halt<'_> {
    ghost use Rattle.std.specs.Prelude.{◌≡◌};
    ghost use Rattle.abel_grammar.specs.declared.halt.Halt.TheVariants.{Memory};

    ghost from_gives = { λ _ e. e ≡ Memory };

    fn from(_error: OutOfMemory) -> Self {
        Halt::Memory
    }
}
