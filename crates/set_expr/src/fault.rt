//! Why a section is refused.

use abel_tree::Ranked;
use pld_base::{OutOfMemory, Place};
use std::alloc::{AllocError, AllocFailed};
use thiserror::Error;

/// A refusal of a section with its place in the expanded text. A number is that of the name that is reported,
/// from 0 in the order of declaration.
#[derive(Clone, Copy, Debug, PartialEq, Eq, Error)]
pub enum SectionFault {
    /// `.X.`, `.C.` or `.Z.` at a place at which it isn't allowed, or a name that holds one.
    #[error("a special value that may not stand here")]
    MisplacedSpecial(Place),
    /// An operator of numbers beside what has bits.
    #[error("an operator of numbers alone")]
    NotConstant(Place),
    /// A division by 0.
    #[error("a division by zero")]
    ZeroDivisor(Place),
    /// Widths that don't meet, a set of more than 32 positions, or a condition of more than one.
    #[error("widths that don't meet")]
    BadWidth(Place),
    /// A target that can't be assigned.
    #[error("no output")]
    NotAnOutput(Place, Option<usize>),
    /// A target that is assigned in another way, or another way than its kind asks for.
    #[error("assigned in two ways")]
    MixedAssignment(Place, usize),
    /// A row that doesn't meet the header of its table, or is no constant.
    #[error("a row that doesn't meet its header")]
    BadRow(Place),
    /// A state that is no constant of the registers' width, or is listed twice.
    #[error("no state of these registers")]
    BadState(Place),
    /// A row of vectors that doesn't meet its header, a header that can't be driven or tested, or the 10,000th
    /// vector.
    #[error("a vector that can't be run")]
    BadVector(Place),
    /// With the unit at this place the source makes more than 262,144 bit nodes.
    #[error("too many bit nodes")]
    NodeLimit(Place),
    /// Memory ran out.
    #[error("out of memory")]
    OutOfMemory,
}

impl Ranked for SectionFault {
    ghost use Rattle.set_expr.specs.SectionOrder.{section_order};

    ghost ranks = { section_order };

    /// Lack of memory has line 0.
    fn place(&self) -> Place {
        match *self {
            SectionFault::MisplacedSpecial(place) => place,
            SectionFault::NotConstant(place) => place,
            SectionFault::ZeroDivisor(place) => place,
            SectionFault::BadWidth(place) => place,
            SectionFault::NotAnOutput(place, _) => place,
            SectionFault::MixedAssignment(place, _) => place,
            SectionFault::BadRow(place) => place,
            SectionFault::BadState(place) => place,
            SectionFault::BadVector(place) => place,
            SectionFault::NodeLimit(place) => place,
            SectionFault::OutOfMemory => Place { line: 0, column: 0 },
        }
    }

    fn rank(&self) -> u8 {
        match *self {
            SectionFault::MisplacedSpecial(_) => 0,
            SectionFault::NotConstant(_) => 1,
            SectionFault::ZeroDivisor(_) => 2,
            SectionFault::BadWidth(_) => 3,
            SectionFault::NotAnOutput(_, _) => 4,
            SectionFault::MixedAssignment(_, _) => 5,
            SectionFault::BadRow(_) => 6,
            SectionFault::BadState(_) => 7,
            SectionFault::BadVector(_) => 8,
            SectionFault::NodeLimit(_) => 9,
            SectionFault::OutOfMemory => 10,
        }
    }
}

impl From<OutOfMemory> for SectionFault {
    ghost use Rattle.std.specs.Prelude.{◌≡◌};
    ghost use Rattle.set_expr.specs.declared.fault.SectionFault.TheVariants as fault;

    ghost from_gives = { λ _ e. e ≡ fault.OutOfMemory };

    fn from(_error: OutOfMemory) -> SectionFault {
        SectionFault::OutOfMemory
    }
}

impl From<AllocError> for SectionFault {
    ghost use Rattle.std.specs.Prelude.{◌≡◌};
    ghost use Rattle.set_expr.specs.declared.fault.SectionFault.TheVariants as fault;

    ghost from_gives = { λ _ e. e ≡ fault.OutOfMemory };

    fn from(_error: AllocError) -> SectionFault {
        SectionFault::OutOfMemory
    }
}

impl<T: Drop> From<AllocFailed<T>> for SectionFault {
    ghost use Rattle.std.specs.Prelude.{◌≡◌};
    ghost use Rattle.set_expr.specs.declared.fault.SectionFault.TheVariants as fault;

    ghost from_gives = { λ _ e. e ≡ fault.OutOfMemory };

    fn from(_error: AllocFailed<T>) -> SectionFault {
        SectionFault::OutOfMemory
    }
}
