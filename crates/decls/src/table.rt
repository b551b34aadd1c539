//! The names of a source while its declarations are read.

ghost use Rattle.std.specs.Prelude.{◌≡◌, OnOk, Bool, List, ℕ};
ghost use Rattle.decls.specs.Prelude.{Table, Kind, find, names_any, view_meaning};
ghost use Rattle.decls.specs.Steps.{Progress, refuse, entered, undeclared};
ghost use Rattle.decls.specs.Shown.{Shows, kept_kind, view_said, wanted};

use crate::fault::{NameFault, first_of};
use crate::items::Given;
use crate::said::Said;
use abel_tree::Meaning;
use indexmap::IndexMap;
use pld_base::{NameText, OutOfMemory, Place};
use std::alloc::Global;

/// A name that is known.
#[derive(Drop)]
pub(crate) struct Known {
    pub(crate) place: Place,
    pub(crate) meaning: Meaning,
    pub(crate) said: Said,
}

/// The names so far in the order of their declarations, and the first refusal so far.
#[derive(Drop)]
pub(crate) struct NameTable {
    pub(crate) pins: u8,
    pub(crate) ground: u8,
    pub(crate) names: IndexMap<Vec<u8>, Known>,
    pub(crate) has_device: bool,
    pub(crate) nodes: u32,
    pub(crate) taken: Vec<u32>,
    pub(crate) waiting: Vec<Given>,
    pub(crate) fault: Option<NameFault>,
}

impl NameTable {
    /// One more refusal.
    pub(crate) fn refuse(&mut self, fault: NameFault)
        ensures { (t : Table) (s : Progress) → Shows t self.old s → Shows t self.new (refuse fault s) }
    {
        let before = self.fault.take();
        self.fault = first_of(before, fault);
    }

    /// Enters a name, if it is new.
    pub(crate) fn enter(
        &mut self,
        alloc: Global,
        name: &[u8],
        known: Known,
    ) -> Result<(), OutOfMemory>
        ensures { OnOk result ((t : Table) (s : Progress) (k : Kind) → view_meaning known.meaning ≡ kept_kind t k → Shows t self.old s → Shows t self.new (entered name.now known.place k (view_said known.said) s)) }
    {
        if self.names.get(name).is_some() {
            let text = NameText::new(alloc, name)?;
            self.refuse(NameFault::Redeclared(known.place, text));
            return Ok(());
        }
        let key = Vec::from_slice(alloc, name)?;
        self.names.insert(key, known)?;
        Ok(())
    }

    /// The number of a name.
    pub(crate) fn number_of(&self, name: &[u8]) -> Option<usize>
        ensures { (t : Table) (s : Progress) → Shows t self.now s → result ≡ find s.entries name.now }
    {
        self.names.get_index_of(name)
    }

    /// Whether the name is known, as a signal if one is wanted.
    pub(crate) fn is_known(&self, name: &[u8], signal: bool) -> bool
        ensures { (t : Table) (s : Progress) → Shows t self.now s → result ≡ names_any (wanted signal) s.entries name.now }
    {
        match self.names.get(name) {
            Some(known) => is_wanted(&known.meaning, signal),
            None => false,
        }
    }

    /// Refuses a name that isn't known.
    pub(crate) fn require(
        &mut self,
        alloc: Global,
        place: Place,
        name: &[u8],
        signal: bool,
    ) -> Result<(), OutOfMemory>
        ensures { OnOk result ((t : Table) (s : Progress) → Shows t self.old s → Shows t self.new (undeclared (wanted signal) place name.now s)) }
    {
        if !self.is_known(name, signal) {
            let text = NameText::new(alloc, name)?;
            self.refuse(NameFault::Undeclared(place, text));
        }
        Ok(())
    }
}

/// Whether a name of this meaning may be if a signal, or else a signal or constant is wanted.
fn is_wanted(meaning: &Meaning, signal: bool) -> bool
    ensures { result ≡ wanted signal (view_meaning meaning.now) }
{
    match meaning {
        Meaning::Pin { pin: _, negated: _ } => true,
        Meaning::Node(_) => true,
        Meaning::Constant(_) => !signal,
        Meaning::DeviceName => false,
    }
}
