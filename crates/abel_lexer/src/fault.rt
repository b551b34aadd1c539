//! Why a text was not scanned.

use pld_base::{OutOfMemory, Place};
use std::alloc::{AllocError, AllocFailed};
use thiserror::Error;

/// The first thing that is wrong with a text, by place; the place is that of its first byte.
#[derive(Clone, Copy, Debug, PartialEq, Eq, Error)]
pub enum ScanFault {
    /// No token begins at the place.
    #[error("no token begins here")]
    NotText(Place),
    /// A number has a digit that its radix lacks, or is 2 to the 32 or more.
    #[error("a number with a digit too large, or too large itself")]
    BadNumber(Place),
    /// A name has more than 31 bytes.
    #[error("a name of more than 31 bytes")]
    LongName(Place),
    /// A special constant, an extension or a keyword that the project leaves out.
    #[error("not in the language of this compiler")]
    Unsupported(Place),
    /// Memory ran out.
    #[error("out of memory")]
    OutOfMemory,
}

impl From<OutOfMemory> for ScanFault {
    ghost use Rattle.std.specs.Prelude.{◌≡◌};
    ghost use Rattle.abel_lexer.specs.declared.fault.ScanFault.TheVariants as fault;

    ghost from_gives = { λ _ e. e ≡ fault.OutOfMemory };

    fn from(_error: OutOfMemory) -> ScanFault {
        ScanFault::OutOfMemory
    }
}

impl From<AllocError> for ScanFault {
    ghost use Rattle.std.specs.Prelude.{◌≡◌};
    ghost use Rattle.abel_lexer.specs.declared.fault.ScanFault.TheVariants as fault;

    ghost from_gives = { λ _ e. e ≡ fault.OutOfMemory };

    fn from(_error: AllocError) -> ScanFault {
        ScanFault::OutOfMemory
    }
}

impl<T: Drop> From<AllocFailed<T>> for ScanFault {
    ghost use Rattle.std.specs.Prelude.{◌≡◌};
    ghost use Rattle.abel_lexer.specs.declared.fault.ScanFault.TheVariants as fault;

    ghost from_gives = { λ _ e. e ≡ fault.OutOfMemory };

    fn from(_error: AllocFailed<T>) -> ScanFault {
        ScanFault::OutOfMemory
    }
}
