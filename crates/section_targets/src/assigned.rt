//! How signals were assigned before.

ghost use Rattle.std.specs.Prelude.{◌≡◌, List, [], ◌∷◌, ◌++◌, OnOk};
ghost use Rattle.section_targets.specs.{first_manner, part_of, AreFirsts};
ghost use Rattle.section_targets.specs.declared.manner.Manner.{Manner};

use crate::manner::Manner;
use pld_base::OutOfMemory;
use std::alloc::Global;
use std::marker::Model;

/// How signals were assigned. Contracts see a list in which each part of each signal is assigned first as it was.
#[derive(Drop)]
pub struct Assigned {
    firsts: Vec<Manner>,
}

impl Model for Assigned {
    ghost use Rattle.std.specs.Prelude.{List};
    ghost use Rattle.section_targets.specs.declared.manner.Manner.{Manner};

    ghost Value = { List Manner };

    ghost view = { λ a. a.firsts.items };
}

impl Assigned {
    /// Nothing is assigned. Takes no memory.
    pub fn new(alloc: Global) -> Assigned
        ensures { result ≡ [] }
    {
        Assigned {
            firsts: Vec::new(alloc),
        }
    }

    /// How the same part of the signal is assigned first. Takes no memory, and no longer if a part is assigned
    /// often.
    pub fn first(&self, manner: Manner) -> Option<Manner>
        ensures { result ≡ first_manner self.now manner.signal (part_of manner.extension) }
    {
        self.firsts
            .iter()
            .copied()
            .find(|earlier| earlier.is_of(manner))
    }

    /// One assignment more.
    pub fn note(&mut self, manner: Manner) -> Result<(), OutOfMemory>
        ensures { OnOk result ((all : List Manner) → AreFirsts self.old all → AreFirsts self.new (all ++ manner ∷ [])) }
    {
        match self.first(manner) {
            Some(_) => Ok(()),
            None => {
                self.firsts.push(manner)?;
                Ok(())
            }
        }
    }
}
