//! The names that the declarations of a module make.

ghost use Rattle.std.specs.Prelude.{◌≡◌};
ghost use Rattle.abel_tree.specs.Entries.{follows_q, is_stored, view_declared};

use crate::attributes::Attributes;
use crate::expressions::Expr;
use bitflags::Flags;
use pld_base::{DeviceName, ListOf, NameText, Place};

/// What a name is declared as. A pin is `negated` if the name is the complement of its level.
#[derive(Drop)]
pub enum Meaning {
    Pin { pin: u8, negated: bool },
    Node(u8),
    Constant(Expr),
    DeviceName,
}

/// A declared name. Of a signal the attributes are its kind (COM or REG), its pin polarity (BUFFER or
/// INVERT) and DC; `assigned` if some data assignment, table output or diagram register names it.
#[derive(Drop)]
pub struct Declared {
    pub name: NameText,
    pub place: Place,
    pub meaning: Meaning,
    pub attributes: Attributes,
    pub assigned: bool,
}

impl Declared {
    /// Whether its attributes say registered.
    pub fn is_registered(&self) -> bool
        ensures { result ≡ (view_declared self.now).words.registered }
    {
        self.attributes.contains(Attributes::REG)
    }

    /// Whether the signal is stored in a register; one that is assigned nothing counts as combinational.
    pub fn is_stored(&self) -> bool
        ensures { result ≡ is_stored (view_declared self.now) }
    {
        self.is_registered() && self.assigned
    }

    /// Whether the pin of a register follows Q, as it does if nothing says otherwise.
    pub fn follows_q(&self) -> bool
        ensures { result ≡ follows_q (view_declared self.now) }
    {
        !self.attributes.contains(Attributes::INVERT)
    }
}

/// The names of a module in the order of their declarations, and its device. A number of a name is its
/// place in the list, from 0.
#[derive(Drop)]
pub struct Names {
    pub list: ListOf<Declared>,
    pub device: DeviceName,
}
