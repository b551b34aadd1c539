//! A pass over the declarations and sections of a module.

ghost use Rattle.std.specs.Prelude.{◌≡◌, OnOk, true, false, List};
ghost use Rattle.decls.specs.Prelude.{is_value, ends_agree, view};
ghost use Rattle.decls.specs.declared.fault.NameFault.{NameFault};
ghost use Rattle.decls.specs.Passed.{Adds, AreAt, Follows, MayLeave, Way, is_behind, items_behind, words_behind};
ghost use Rattle.decls.specs.Steps.{Progress, constant_entered, device_entered, range_used, refuse_all, undeclared};

use crate::table::NameTable;
use abel_tree::{Expr, Item, Word};
use pld_base::{OutOfMemory, Place};
use std::alloc::Global;

/// A pass over a module: the table of its names, from which names may be left out once something is
/// refused before them.
#[derive(Drop)]
pub(crate) struct Pass {
    pub(crate) table: NameTable,
    /// Whether names may be left out.
    pub(crate) skips: bool,
    /// Whether names were left out. From then on the table stays as it is.
    pub(crate) skipped: bool,
    /// Whether what was left out may be refused first.
    pub(crate) lost: bool,
}

impl Pass {
    /// Leaves something out; `behind` if all its places are after the first refusal.
    pub(crate) fn leave(&mut self, behind: bool)
        ensures skipped { self.new.skipped ≡ true }
        ensures left { (w : Way) (s n : Progress) → w.skips ≡ true → (behind ≡ true → self.old.lost ≡ false → MayLeave self.old.table.fault s n) → Follows w self.old s → Follows w self.new n }
    {
        self.skipped = true;
        if !behind {
            self.lost = true;
        }
    }

    /// Leaves a declaration out, where names were left out before.
    pub(crate) fn leave_out(&mut self, names: &[Item], attributes: &[Word])
        ensures { (w : Way) (s n : Progress) → self.old.skipped ≡ true → (items_behind self.old.table.fault names.now ≡ true → words_behind self.old.table.fault attributes.now ≡ true → Adds self.old.table.fault s n) → Follows w self.old s → Follows w self.new n }
    {
        let behind = self.table.declaration_behind(names, attributes);
        self.leave(behind);
    }

    /// Leaves the rest of a declaration out, where something is refused before it.
    pub(crate) fn stops_at_items(&mut self, rest: &[Item]) -> bool
        ensures stops { result ≡ true → (w : Way) (s n : Progress) → (items_behind self.old.table.fault rest.now ≡ true → Adds self.old.table.fault s n) → Follows w self.old s → Follows w self.new n }
        ensures goes { result ≡ false → self.new ≡ self.old }
    {
        match rest {
            [item, ..] => {
                if self.skips && self.table.is_behind(item.first.place) {
                    let behind = self.table.items_behind(rest);
                    self.leave(behind);
                    return true;
                }
                false
            }
            [] => false,
        }
    }

    /// Leaves what strings say out, where something is refused before them.
    pub(crate) fn stops_at_words(&mut self, words: &[Word]) -> bool
        ensures stops { result ≡ true → (w : Way) (s n : Progress) → (words_behind self.old.table.fault words.now ≡ true → Adds self.old.table.fault s n) → Follows w self.old s → Follows w self.new n }
        ensures goes { result ≡ false → self.new ≡ self.old }
    {
        match words {
            [word, ..] => {
                if self.skips && self.table.is_behind(word.place) {
                    let behind = self.table.words_behind(words);
                    self.leave(behind);
                    return true;
                }
                false
            }
            [] => false,
        }
    }

    /// Whether a use is passed over: it is after the first refusal, or names were left out before.
    fn passes(&mut self, place: Place) -> bool
        ensures passed { result ≡ true → (w : Way) (s : Progress) (fs : List NameFault) → AreAt place fs → Follows w self.old s → Follows w self.new (refuse_all fs s) }
        ensures looked { result ≡ false → self.new ≡ self.old × (self.old.skipped ≡ false) }
    {
        if self.skipped {
            self.leave_at(place);
            return true;
        }
        self.table.is_behind(place)
    }

    /// Refuses a name that isn't known as a signal or constant.
    pub(crate) fn use_name(&mut self, alloc: Global, word: &Word) -> Result<(), OutOfMemory>
        ensures { OnOk result ((w : Way) (s : Progress) → Follows w self.old s → Follows w self.new (undeclared is_value word.now.place word.now.text s)) }
    {
        if self.passes(word.place) {
            return Ok(());
        }
        self.table
            .require(alloc, word.place, word.text.bytes(), false)
    }

    /// Refuses a range whose ends don't agree, or its first name that isn't known.
    pub(crate) fn use_range(
        &mut self,
        alloc: Global,
        first: &Word,
        last: &Word,
    ) -> Result<(), OutOfMemory>
        ensures { OnOk result ((w : Way) (s : Progress) → Follows w self.old s → Follows w self.new (range_used (ends_agree first.now.text last.now.text) first.now last.now s)) }
    {
        if self.passes(first.place) {
            return Ok(());
        }
        self.table.require_range(alloc, first, last)
    }

    /// Declares a constant.
    pub(crate) fn enter_constant(
        &mut self,
        alloc: Global,
        name: &Word,
        value: &Expr,
    ) -> Result<(), OutOfMemory>
        ensures { OnOk result ((w : Way) (s : Progress) → Follows w self.old s → Follows w self.new (constant_entered name.now (view value.now) s)) }
    {
        if self.skipped {
            self.leave_at(name.place);
            return Ok(());
        }
        self.table.declare_constant(alloc, name, value)
    }

    /// Declares the name of the device.
    pub(crate) fn enter_device(&mut self, alloc: Global, name: &Word) -> Result<(), OutOfMemory>
        ensures { OnOk result ((w : Way) (s : Progress) → Follows w self.old s → Follows w self.new (device_entered name.now s)) }
    {
        if self.skipped {
            self.leave_at(name.place);
            return Ok(());
        }
        self.table.declare_device(alloc, name)
    }

    /// Leaves a name out, where names were left out before.
    fn leave_at(&mut self, place: Place)
        ensures { (w : Way) (s n : Progress) → self.old.skipped ≡ true → (is_behind self.old.table.fault place ≡ true → Adds self.old.table.fault s n) → Follows w self.old s → Follows w self.new n }
    {
        let behind = self.table.is_behind(place);
        self.leave(behind);
    }
}
