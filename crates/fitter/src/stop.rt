//! Why there is no answer.

use std::alloc::{AllocError, AllocFailed};

/// Why there is no answer: a refusal, or lack of memory, which no contract ties to a cause.
#[derive(Clone, Copy, PartialEq, Eq)]
pub enum Stop<F> {
    Refused(F),
    Memory,
}

impl<F> From<AllocError> for Stop<F> {
    ghost use Rattle.std.specs.Prelude.{◌≡◌};
    ghost use Rattle.fitter.specs.declared.stop.Stop.TheVariants.{Memory};

    ghost from_gives = { λ _ e. e ≡ Memory };

    fn from(_error: AllocError) -> Stop<F> {
        Stop::Memory
    }
}

impl<F, T: Drop> From<AllocFailed<T>> for Stop<F> {
    ghost use Rattle.std.specs.Prelude.{◌≡◌};
    ghost use Rattle.fitter.specs.declared.stop.Stop.TheVariants.{Memory};

    ghost from_gives = { λ _ e. e ≡ Memory };

    fn from(_error: AllocFailed<T>) -> Stop<F> {
        Stop::Memory
    }
}
