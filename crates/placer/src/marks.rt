//! What names represent among some signals.
//!
//! A mark is a number of 32 bits: bit k is that of the signal at place k of those that are asked for.

ghost use Rattle.std.specs.Prelude.{◌≡◌, ◌≤◌, ℕ, List, IfOk, OnOk, length, map, ◌++◌, ◌∷◌, []};
ghost use Rattle.placer.specs.Prelude.{bit_or, flat_map, Named, signals_of_name, signals_of_names, view, view_use};
ghost use Rattle.name_uses.specs.RangeParts.{name_items};
ghost use Rattle.placer.specs.Marks.{AreMarks, HasMark, IsMarkOf};
ghost use Rattle.abel_meaning.specs.Reads.{signals_in};
ghost use Rattle.placer.specs.PartReads.{signals_at};

use abel_tree::Expr;
use indexmap::IndexMap;
use name_uses::{NameUse, names_used, range_list};
use pld_base::{OutOfMemory, with_level};
use std::alloc::Global;

/// Names with their marks, each as it is declared first.
#[derive(Drop)]
pub(crate) struct Marks {
    pub(crate) map: IndexMap<Vec<u8>, u32>,
}

/// The signals of both marks.
pub(crate) fn joined(first: u32, second: u32) -> u32
    ensures { result ≡ bit_or first second }
{
    first | second
}

/// The mark of a signal.
pub(crate) fn mark_of(signals: &[usize], number: usize) -> u32
    requires { length signals.now ≤ 32 }
    ensures { HasMark signals.now (number ∷ []) result }
{
    let mut mark = 0;
    for (place, signal) in signals.iter().enumerate() {
        if *signal == number {
            mark = with_level(mark, place as u8, true);
        }
    }
    mark
}

impl Marks {
    /// One more name, unless it is known.
    pub(crate) fn enter(&mut self, alloc: Global, name: &[u8], mark: u32) -> Result<(), OutOfMemory>
        ensures { OnOk result ((signals numbers : List ℕ) (ks : List Named) → AreMarks signals ks self.old → HasMark signals numbers mark → AreMarks signals (ks ++ record { name = name.now; signals = numbers } ∷ []) self.new) }
    {
        if self.map.get(name).is_some() {
            return Ok(());
        }
        let key = Vec::from_slice(alloc, name)?;
        self.map.insert(key, mark)?;
        Ok(())
    }

    /// The mark of a name, 0 if it is not known.
    pub(crate) fn of_name(&self, name: &[u8]) -> u32
        ensures { IsMarkOf self.now (λ ks. signals_of_name ks name.now) result }
    {
        match self.map.get(name) {
            Some(mark) => *mark,
            None => 0,
        }
    }

    /// The marks of names, joined.
    pub(crate) fn of_names(&self, names: &[Vec<u8>]) -> u32
        ensures { IsMarkOf self.now (λ ks. signals_of_names ks (map name_items names.now)) result }
    {
        let mut mark = 0;
        for name in names {
            mark = joined(mark, self.of_name(name.as_slice()));
        }
        mark
    }

    /// The mark of a name that an expression uses, or of the names of a range.
    fn of_use(&self, alloc: Global, used: &NameUse<'_>) -> Result<u32, OutOfMemory>
        ensures { IfOk result (IsMarkOf self.now (λ ks. signals_at ks (view_use used.now))) }
    {
        let first = used.first.text.bytes();
        match used.last {
            None => Ok(self.of_name(first)),
            Some(last) => {
                let names = range_list(alloc, first, last.text.bytes())?;
                Ok(self.of_names(names.as_slice()))
            }
        }
    }

    /// The marks of the names that an expression uses, joined: under any operator, in any set and with any extension.
    pub(crate) fn of_uses(&self, alloc: Global, uses: &[NameUse<'_>]) -> Result<u32, OutOfMemory>
        ensures { IfOk result (IsMarkOf self.now
            (λ ks. flat_map (signals_at ks) (map view_use uses.now))) }
    {
        let mut mark = 0;
        for used in uses {
            mark = joined(mark, self.of_use(alloc, used)?);
        }
        Ok(mark)
    }

    /// What an expression names.
    pub(crate) fn of_expr(&self, alloc: Global, expr: &Expr) -> Result<u32, OutOfMemory>
        ensures { IfOk result (IsMarkOf self.now (λ ks. signals_in ks (view expr.now))) }
    {
        let uses = names_used(alloc, expr)?;
        self.of_uses(alloc, uses.as_slice())
    }
}
