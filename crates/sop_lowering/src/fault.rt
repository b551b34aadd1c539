//! Why no list was answered.

use std::alloc::{AllocError, AllocFailed};
use thiserror::Error;

/// Why no list was answered.
#[derive(Clone, Copy, Debug, PartialEq, Eq, Error)]
pub enum LowerFault {
    /// A list on the way would have more than 1,024 products.
    #[error("more than 1,024 products")]
    TooWide,
    /// Memory ran out.
    #[error("out of memory")]
    OutOfMemory,
}

impl From<AllocError> for LowerFault {
    ghost use Rattle.std.specs.Prelude.{◌≡◌};
    ghost use Rattle.sop_lowering.specs.declared.fault.LowerFault.TheVariants.{OutOfMemory};

    ghost from_gives = { λ _ e. e ≡ OutOfMemory };

    fn from(_error: AllocError) -> LowerFault {
        LowerFault::OutOfMemory
    }
}

impl<T: Drop> From<AllocFailed<T>> for LowerFault {
    ghost use Rattle.std.specs.Prelude.{◌≡◌};
    ghost use Rattle.sop_lowering.specs.declared.fault.LowerFault.TheVariants.{OutOfMemory};

    ghost from_gives = { λ _ e. e ≡ OutOfMemory };

    fn from(_error: AllocFailed<T>) -> LowerFault {
        LowerFault::OutOfMemory
    }
}
