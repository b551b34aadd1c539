//! Why a text is not expanded.

use pld_base::{OutOfMemory, Place};
use std::alloc::{AllocError, AllocFailed};
use std::fmt::{self, Debug, Formatter};
use thiserror::Error;

/// The refusal of a text; the place is that after the text done before it.
#[derive(Clone, Copy, PartialEq, Eq, Error)]
pub enum ExpandFault {
    /// After a rewriting, the text done and the rest would have more than 1,048,576 bytes.
    #[error("the expanded text is too long")]
    TooLong(Place),
    /// A rewriting would follow 65,536 others.
    #[error("more than 65,536 macros and directives are replaced")]
    ExpansionLimit(Place),
    /// A macro or a directive is broken.
    #[error("a macro or a directive is broken")]
    BadDirective(Place),
    /// A directive that the project leaves out.
    #[error("not in the language of this compiler")]
    Unsupported(Place),
    /// Memory ran out.
    #[error("out of memory")]
    OutOfMemory,
}

impl Debug for ExpandFault {
    fn fmt<W: fmt::Write>(&self, f: &mut Formatter<W>) -> fmt::Result {
        write!(f, "{self}")
    }
}

impl From<OutOfMemory> for ExpandFault {
    ghost use Rattle.std.specs.Prelude.{◌≡◌};
    ghost use Rattle.abel_expand.specs.declared.fault.ExpandFault.TheVariants as fault;

    ghost from_gives = { λ _ e. e ≡ fault.OutOfMemory };

    fn from(_error: OutOfMemory) -> ExpandFault {
        ExpandFault::OutOfMemory
    }
}

impl From<AllocError> for ExpandFault {
    ghost use Rattle.std.specs.Prelude.{◌≡◌};
    ghost use Rattle.abel_expand.specs.declared.fault.ExpandFault.TheVariants as fault;

    ghost from_gives = { λ _ e. e ≡ fault.OutOfMemory };

    fn from(_error: AllocError) -> ExpandFault {
        ExpandFault::OutOfMemory
    }
}

impl<T: Drop> From<AllocFailed<T>> for ExpandFault {
    ghost use Rattle.std.specs.Prelude.{◌≡◌};
    ghost use Rattle.abel_expand.specs.declared.fault.ExpandFault.TheVariants as fault;

    ghost from_gives = { λ _ e. e ≡ fault.OutOfMemory };

    fn from(_error: AllocFailed<T>) -> ExpandFault {
        ExpandFault::OutOfMemory
    }
}
