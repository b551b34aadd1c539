//! Why a design is refused.

use pld_base::{ListOf, OutOfMemory, Place};
use std::fmt::{self, Debug, Formatter};
use thiserror::Error;

/// A refusal of a design with its place in the expanded text. A number is that of the name that is reported, from 0 in
/// the order of declaration; a list has the names of a chain. The kinds are in this order, and those of one kind by
/// place.
#[derive(Drop, Error)]
pub enum DesignFault {
    /// A registered signal on a cell that can't register, or a combinational one on a cell that must; its first
    /// target.
    #[error("a cell that can't be so")]
    WrongKind(Place, usize),
    /// A node that is registered; its declaration.
    #[error("a node that is registered")]
    RegisteredNode(Place, usize),
    /// An extension that the signal does not have, or an equation that says otherwise than the device does; its use.
    #[error("no such control")]
    NoSuchControl(Place, usize),
    /// A control that is assigned by `?=`; the target.
    #[error("a control that may be either")]
    DontCareControl(Place, usize),
    /// A use of what no column of the device carries.
    #[error("no column for what is read")]
    NoReadPath(Place, usize),
    /// Signals, each of which reads the next, and the last the first, which is the earliest declared on any such loop;
    /// its declaration.
    #[error("signals that wait for themselves")]
    Loop(Place, ListOf<usize>),
    /// Signals from a reset to a register, each of which reads the next; the first target of the reset.
    #[error("a reset that reads a register")]
    ResetReadsRegister(Place, ListOf<usize>),
    /// Memory ran out.
    #[error("out of memory")]
    OutOfMemory,
}

impl Debug for DesignFault {
    fn fmt<W: fmt::Write>(&self, f: &mut Formatter<W>) -> fmt::Result {
        write!(f, "{self}")
    }
}

impl From<OutOfMemory> for DesignFault {
    ghost use Rattle.std.specs.Prelude.{◌≡◌};
    ghost use Rattle.design_checks.specs.declared.fault.DesignFault.TheVariants as fault;

    ghost from_gives = { λ _ e. e ≡ fault.OutOfMemory };

    fn from(_error: OutOfMemory) -> DesignFault {
        DesignFault::OutOfMemory
    }
}
