//! What is refused of the names of a source.

ghost use Rattle.std.specs.Prelude.{◌≡◌, Some};
ghost use Rattle.abel_tree.specs.FirstRefusal as refusal;
ghost use Rattle.decls.specs.FaultOrder.{name_order};
ghost use Rattle.decls.specs.Passed.{stands_before};

use abel_tree::{Ranked, earlier};
use pld_base::{NameText, OutOfMemory, Place};
use std::fmt::{self, Debug, Formatter};
use thiserror::Error;

/// A refusal with its place. A text is the name that is refused.
#[derive(Drop, Error)]
pub enum NameFault {
    /// The name, or a device, is declared already.
    #[error("declared a second time")]
    Redeclared(Place, NameText),
    /// No device is declared, at the source's first token, or no device has the string at this place.
    #[error("no device of this compiler")]
    UnknownDevice(Place),
    /// The ends of a range of names do not agree; the place is that of the first end.
    #[error("the ends of a range don't agree")]
    BadRange(Place),
    /// The device lets no name have this pin, or a pin declaration has too many names or numbers, or
    /// a node has a number.
    #[error("no pin for this name")]
    BadPin(Place, NameText),
    /// The pin has a name already.
    #[error("a pin that has a name already")]
    PinTaken(Place, NameText),
    /// A string has an unknown word or contradicts what was said before; or, at the name, a register
    /// whose pin can only be the complement is declared `buffer`.
    #[error("an attribute that can't be met")]
    BadAttribute(Place),
    /// The 129th node.
    #[error("more than 128 nodes")]
    TooManyNodes(Place, NameText),
    /// The name is used but not declared before, or not as what is wanted there.
    #[error("not declared before")]
    Undeclared(Place, NameText),
    /// Memory ran out.
    #[error("out of memory")]
    OutOfMemory,
}

impl Ranked for NameFault {
    ghost use Rattle.decls.specs.FaultOrder.{name_order};

    ghost ranks = { name_order };

    /// Lack of memory has line 0.
    fn place(&self) -> Place {
        match self {
            NameFault::Redeclared(place, _) => *place,
            NameFault::UnknownDevice(place) => *place,
            NameFault::BadRange(place) => *place,
            NameFault::BadPin(place, _) => *place,
            NameFault::PinTaken(place, _) => *place,
            NameFault::BadAttribute(place) => *place,
            NameFault::TooManyNodes(place, _) => *place,
            NameFault::Undeclared(place, _) => *place,
            NameFault::OutOfMemory => Place { line: 0, column: 0 },
        }
    }

    /// The order of the variants.
    fn rank(&self) -> u8 {
        match self {
            NameFault::Redeclared(_, _) => 0,
            NameFault::UnknownDevice(_) => 1,
            NameFault::BadRange(_) => 2,
            NameFault::BadPin(_, _) => 3,
            NameFault::PinTaken(_, _) => 4,
            NameFault::BadAttribute(_) => 5,
            NameFault::TooManyNodes(_, _) => 6,
            NameFault::Undeclared(_, _) => 7,
            NameFault::OutOfMemory => 8,
        }
    }
}

/// Whether one place precedes another.
pub(crate) fn stands_before(one: Place, other: Place) -> bool
    ensures { result ≡ stands_before one other }
{
    one.line < other.line || (one.line == other.line && one.column < other.column)
}

/// The first of two refusals by place, at one place by kind; `before` is None if there isn't one yet.
/// Takes no memory.
pub fn first_of(before: Option<NameFault>, fault: NameFault) -> Option<NameFault>
    ensures { result ≡ refusal.earlier name_order before (Some fault) }
{
    earlier(before, Some(fault))
}

impl Debug for NameFault {
    fn fmt<W: fmt::Write>(&self, f: &mut Formatter<W>) -> fmt::Result {
        write!(f, "{self}")
    }
}

impl From<OutOfMemory> for NameFault {
    ghost use Rattle.std.specs.Prelude.{◌≡◌};
    ghost use Rattle.decls.specs.declared.fault.NameFault.TheVariants as fault;

    ghost from_gives = { λ _ e. e ≡ fault.OutOfMemory };

    fn from(_error: OutOfMemory) -> NameFault {
        NameFault::OutOfMemory
    }
}
