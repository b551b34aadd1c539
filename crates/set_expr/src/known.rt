//! What is known of the names of a source, made once for all its expressions.

ghost use Rattle.std.specs.Prelude.{◌≡◌, ℕ, List, [], Some, None, OnOk, bytes_eq, if◌then◌else◌};
ghost use Rattle.std.specs.Option.{option_or};
ghost use Rattle.abel_tree.specs.FirstRefusal as refusal;
ghost use Rattle.set_expr.specs.{under, section_order};

use crate::fault::SectionFault;
use crate::known_name::KnownName;
use abel_tree::earlier;
use indexmap::IndexMap;
use pld_base::OutOfMemory;
use std::alloc::Global;
use std::marker::Model;

/// What is known of all names of a source. A look-up takes no longer if there are many.
#[derive(Drop)]
pub(crate) struct KnownNames {
    names: IndexMap<Vec<u8>, KnownName>,
    fault: Option<SectionFault>,
}

impl Model for KnownNames {
    ghost use Rattle.set_expr.specs.KnownNames.{Table, by_bytes};

    ghost Value = { Table };

    ghost view = { λ k. record { names = by_bytes k.names.entries; fault = k.fault } };
}

impl KnownNames {
    /// No name.
    pub(crate) fn new(alloc: Global) -> KnownNames
        ensures { result ≡ record { names = []; fault = None } }
    {
        KnownNames {
            names: IndexMap::new(alloc),
            fault: None,
        }
    }

    /// What is known of a name. Takes no memory.
    pub(crate) fn get(&self, name: &[u8]) -> Option<KnownName>
        ensures { result ≡ under self.now.names name.now }
    {
        self.names.get(name).copied()
    }

    /// The first refusal of all constants.
    pub(crate) fn fault(&self) -> Option<SectionFault>
        ensures { result ≡ self.now.fault }
    {
        self.fault
    }

    /// Keeps a name that isn't known.
    fn insert(&mut self, name: Vec<u8>, known: KnownName) -> Result<(), OutOfMemory>
        requires { under self.old.names name.items ≡ None }
        ensures names { OnOk result ((w : List ℕ) → under self.new.names w ≡ option_or (under self.old.names w) (if bytes_eq w name.items then Some known else None)) }
        ensures fault { self.new.fault ≡ self.old.fault }
    {
        self.names.insert(name, known)?;
        Ok(())
    }

    /// Keeps what is known of one name more, with its refusal; of a name that is known already the older stays.
    pub(crate) fn keep(
        &mut self,
        alloc: Global,
        name: &[u8],
        known: KnownName,
    ) -> Result<(), OutOfMemory>
        ensures names { OnOk result ((w : List ℕ) → under self.new.names w ≡ option_or (under self.old.names w) (if bytes_eq w name.now then Some known else None)) }
        ensures fault { OnOk result (self.new.fault ≡ refusal.earlier section_order self.old.fault known.checked.fault) }
    {
        self.fault = earlier(self.fault, known.checked.fault);
        match self.get(name) {
            Some(_) => Ok(()),
            None => self.insert(Vec::from_slice(alloc, name)?, known),
        }
    }
}
