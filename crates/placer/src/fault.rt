//! Why a module can't be placed.

use pld_base::OutOfMemory;
use std::fmt::{self, Debug, Formatter};
use thiserror::Error;

/// Why a module can't be placed.
#[derive(Drop, Error)]
pub enum PlaceFault {
    /// Too few free pins fit these signals, which are given by their numbers, in rising order; `places` is how many fit
    /// some of them.
    #[error("too few pins")]
    NoPlacement { signals: Vec<usize>, places: usize },
    /// Memory ran out.
    #[error("out of memory")]
    OutOfMemory,
}

impl Debug for PlaceFault {
    fn fmt<W: fmt::Write>(&self, f: &mut Formatter<W>) -> fmt::Result {
        write!(f, "{self}")
    }
}

impl From<OutOfMemory> for PlaceFault {
    ghost use Rattle.std.specs.Prelude.{◌≡◌};
    ghost use Rattle.placer.specs.declared.fault.PlaceFault.TheVariants as fault;

    ghost from_gives = { λ _ e. e ≡ fault.OutOfMemory };

    fn from(_error: OutOfMemory) -> PlaceFault {
        PlaceFault::OutOfMemory
    }
}
