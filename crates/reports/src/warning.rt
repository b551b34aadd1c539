//! A warning.

ghost use Rattle.std.specs.Prelude.{◌≡◌, ◌++◌, ◌∷◌, [], OnOk};
ghost use Rattle.reports.specs.Warnings.{warned};

use pld_base::{ListOf, NameText, OutOfMemory, Place};
use std::alloc::Global;
use std::marker::Model;

/// What is rarely meant.
#[derive(Clone, Copy, PartialEq, Eq)]
pub enum Cause {
    /// `+` between single signals, which is XOR.
    PlusOfSingles,
    /// A word of ISTYPE that does nothing.
    IdleWord,
    /// A second assignment of a name, which adds to the first one.
    SecondAssignment,
    /// A pin that is neither read nor assigned.
    UnusedPin,
    /// An active-low register that is asserted after power-up.
    AssertedAtPowerUp,
    /// No test vectors.
    NoVectors,
}

/// A warning at a place of the expanded text, of a name or a word that may be empty.
#[derive(Drop)]
pub struct Warning {
    pub cause: Cause,
    pub place: Place,
    pub name: NameText,
}

/// Warnings as they are found.
#[derive(Drop)]
pub struct Found {
    alloc: Global,
    list: Vec<Warning>,
}

impl Model for Found {
    ghost use Rattle.std.specs.Prelude.{List};
    ghost use Rattle.reports.specs.declared.warning.Warning.{Warning};

    ghost Value = { List Warning };

    ghost view = { λ f. f.list.items };
}

impl Found {
    /// No warning yet. Takes no memory.
    pub fn new(alloc: Global) -> Found
        ensures { result ≡ [] }
    {
        Found {
            alloc,
            list: Vec::new(alloc),
        }
    }

    /// Adds a warning.
    pub fn add(&mut self, cause: Cause, place: Place, name: &[u8]) -> Result<(), OutOfMemory>
        ensures { OnOk result (self.new ≡ self.old ++ warned cause place name.now ∷ []) }
    {
        self.list.push(Warning {
            cause,
            place,
            name: NameText::new(self.alloc, name)?,
        })?;
        Ok(())
    }

    /// The warnings, in the order in which they were found. Takes no memory.
    pub fn into_list(self) -> ListOf<Warning>
        ensures { result ≡ self }
    {
        ListOf::from_vec(self.list)
    }
}
