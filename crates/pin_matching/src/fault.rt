//! Why signals can't all be placed.

use pld_base::OutOfMemory;
use std::fmt::{self, Debug, Formatter};
use thiserror::Error;

/// Why signals can't all be placed.
#[derive(Drop, Error)]
pub enum Unplaced {
    /// Too few pins fit these signals, which are in rising order; `places` is how many fit some of them.
    #[error("too few pins")]
    NoPlacement { signals: Vec<usize>, places: usize },
    /// Memory ran out.
    #[error("out of memory")]
    OutOfMemory,
}

impl Debug for Unplaced {
    fn fmt<W: fmt::Write>(&self, f: &mut Formatter<W>) -> fmt::Result {
        write!(f, "{self}")
    }
}

impl From<OutOfMemory> for Unplaced {
    ghost use Rattle.std.specs.Prelude.{◌≡◌};
    ghost use Rattle.pin_matching.specs.declared.fault.Unplaced.TheVariants as fault;

    ghost from_gives = { λ _ e. e ≡ fault.OutOfMemory };

    fn from(_error: OutOfMemory) -> Unplaced {
        Unplaced::OutOfMemory
    }
}
