//! What is refused of the items and strings of a declaration.

ghost use Rattle.std.specs.Prelude.{◌≡◌, ◌||◌, IfOk, OnOk, Bool, true, List, ℕ, [], ◌∷◌, length, map, option_map};
ghost use Rattle.decls.specs.Prelude.{list_any, Table, Words, is_bad, item_names, given_names, no_words};
ghost use Rattle.decls.specs.declared.fault.NameFault.TheVariants.{BadRange};
ghost use Rattle.decls.specs.Attributes.{strings_refused};
ghost use Rattle.decls.specs.NamesBefore.{words_named, words_of_names};
ghost use Rattle.decls.specs.Refused.{refused_if, ranges_refused, counts_refused, counts_differ, has_numbers, first_name, item_refused, items_refused};
ghost use Rattle.decls.specs.Shown.{Shows, said_before, view_given, view_said};
ghost use Rattle.decls.specs.Steps.{Progress, refuse_all};
ghost use Rattle.decls.specs.Passed.{items_told};
ghost use Rattle.decls.specs.Walked.{new_checked};

use crate::fault::NameFault;
use crate::items::{Given, given_in, has_bad};
use crate::said::{NOTHING, Said};
use crate::saying::all_in;
use crate::spans::is_count;
use crate::table::NameTable;
use abel_tree::{Item, Span, Word};
use name_uses::{is_bad_item, item_list};
use pld_base::{NameText, OutOfMemory};
use std::alloc::Global;

/// The first name of an item, or the first end of a bad range.
fn first_name(alloc: Global, item: &Item) -> Result<NameText, OutOfMemory>
    ensures { IfOk result (λ n. n ≡ first_name item.now (item_names item.now)) }
{
    let names = item_list(alloc, item)?;
    match names.as_slice() {
        [name, ..] => NameText::new(alloc, name.as_slice()),
        [] => NameText::new(alloc, item.first.text.bytes()),
    }
}

/// Whether there are numbers, but fewer or more than names, which are counted already.
pub(crate) fn counts_differ(names: &[Item], count: u128, numbers: &[Span]) -> bool
    ensures { count ≡ length (given_names names.now) → result ≡ counts_differ names.now numbers.now }
{
    has_numbers(numbers) && !has_bad(names) && !is_count(numbers, count)
}

/// Whether there are numbers.
pub(crate) fn has_numbers(numbers: &[Span]) -> bool
    ensures { result ≡ has_numbers numbers.now }
{
    !numbers.is_empty()
}

/// Adds words to a list, unless they are there.
fn add_said(list: &mut Vec<Said>, said: Said) -> Result<(), OutOfMemory>
    ensures { OnOk result ((p : Words → Bool) → list_any p (map view_said list.new.items) ≡ (list_any p (map view_said list.old.items) || p (view_said said))) }
{
    if !has_said(list.as_slice(), said) {
        list.push(said)?;
    }
    Ok(())
}

/// Whether the words are in the list.
fn has_said(list: &[Said], said: Said) -> bool
    ensures { result ≡ true → (p : Words → Bool) → p (view_said said) ≡ true → list_any p (map view_said list.now) ≡ true }
{
    for other in list {
        if *other == said {
            return true;
        }
    }
    false
}

impl NameTable {
    /// Refuses a range whose ends don't agree.
    fn refuse_range(&mut self, item: &Item)
        ensures { (t : Table) (s : Progress) → Shows t self.old s → Shows t self.new (refuse_all (refused_if (is_bad item.now) (BadRange item.now.first.place)) s) }
    {
        if is_bad_item(item) {
            self.refuse(NameFault::BadRange(item.first.place));
        }
    }

    /// Refuses ranges whose ends don't agree.
    fn refuse_ranges(&mut self, items: &[Item])
        ensures { (t : Table) (s : Progress) → Shows t self.old s → Shows t self.new (refuse_all (ranges_refused items.now) s) }
    {
        for item in items {
            self.refuse_range(item);
        }
    }

    /// Refuses names that don't meet their numbers, at the first of them.
    fn refuse_counts(
        &mut self,
        alloc: Global,
        wrong: bool,
        items: &[Item],
    ) -> Result<(), OutOfMemory>
        ensures { OnOk result ((t : Table) (s : Progress) → Shows t self.old s → Shows t self.new (refuse_all (counts_refused wrong items.now) s)) }
    {
        if !wrong {
            return Ok(());
        }
        if let [item, ..] = items {
            let text = first_name(alloc, item)?;
            self.refuse(NameFault::BadPin(item.first.place, text));
        }
        Ok(())
    }

    /// Refuses ranges, counts and strings of names that are declared anew.
    pub(crate) fn check_new(
        &mut self,
        alloc: Global,
        wrong: bool,
        names: &[Item],
        attributes: &[Word],
    ) -> Result<(), OutOfMemory>
        ensures { OnOk result ((t : Table) (s : Progress) → Shows t self.old s → Shows t self.new (new_checked wrong names.now attributes.now s)) }
    {
        self.refuse_ranges(names);
        self.refuse_counts(alloc, wrong, names)?;
        self.check_strings(&[NOTHING], attributes);
        Ok(())
    }

    /// Refuses a bad range, or the first name of the item that is no signal.
    fn check_item(&mut self, alloc: Global, item: &Item) -> Result<(), OutOfMemory>
        ensures { OnOk result ((t : Table) (s : Progress) → Shows t self.old s → Shows t self.new (refuse_all (item_refused s.entries item.now) s)) }
    {
        if self.is_behind(item.first.place) {
            return Ok(());
        }
        self.refuse_range(item);
        let names = item_list(alloc, item)?;
        self.require_all(alloc, item.first.place, names.as_slice(), true)
    }

    /// Refuses bad ranges and names that are no signals.
    pub(crate) fn check_items(&mut self, alloc: Global, items: &[Item]) -> Result<(), OutOfMemory>
        ensures { OnOk result ((t : Table) (s : Progress) → Shows t self.old s → Shows t self.new (refuse_all (items_refused s.entries items.now) s)) }
    {
        for item in items {
            self.check_item(alloc, item)?;
        }
        Ok(())
    }

    /// The words that were said of a name.
    fn said_before(&self, name: &[u8]) -> Option<Said>
        ensures { (t : Table) (s : Progress) → Shows t self.now s → option_map view_said result ≡ said_before s.entries name.now }
    {
        match self.names.get(name) {
            Some(known) => Some(known.said),
            None => None,
        }
    }

    /// The words that were said of names, each once: at most 32.
    fn words_before(&self, alloc: Global, names: &[Given]) -> Result<Vec<Said>, OutOfMemory>
        ensures { IfOk result (λ ws. (t : Table) (s : Progress) (p : Words → Bool) → Shows t self.now s → list_any p (map view_said ws.items) ≡ list_any p (words_of_names s.entries (map view_given names.now))) }
    {
        let mut befores = Vec::new(alloc);
        for given in names {
            self.add_before(&mut befores, given)?;
        }
        Ok(befores)
    }

    /// Adds the words that were said of a name.
    fn add_before(&self, befores: &mut Vec<Said>, given: &Given) -> Result<(), OutOfMemory>
        ensures { OnOk result ((t : Table) (s : Progress) (p : Words → Bool) → Shows t self.now s → list_any p (map view_said befores.new.items) ≡ (list_any p (map view_said befores.old.items) || list_any p (words_named s.entries (view_given given.now).name))) }
    {
        match self.said_before(given.name.as_slice()) {
            Some(said) => add_said(befores, said),
            None => Ok(()),
        }
    }

    /// Refuses strings for names that are declared already.
    fn check_said(
        &mut self,
        alloc: Global,
        names: &[Given],
        attributes: &[Word],
    ) -> Result<(), OutOfMemory>
        ensures { OnOk result ((t : Table) (s : Progress) → Shows t self.old s → Shows t self.new (refuse_all (strings_refused (words_of_names s.entries (map view_given names.now)) no_words attributes.now) s)) }
    {
        let befores = self.words_before(alloc, names)?;
        self.check_strings(befores.as_slice(), attributes);
        Ok(())
    }

    /// Refuses strings of an ISTYPE declaration, and adds their words to what is said of its names.
    pub(crate) fn tell_items(
        &mut self,
        alloc: Global,
        names: &[Item],
        attributes: &[Word],
    ) -> Result<(), OutOfMemory>
        ensures { OnOk result ((t : Table) (s : Progress) → Shows t self.old s → Shows t self.new (items_told names.now attributes.now s)) }
    {
        let given = given_in(alloc, names)?;
        self.check_said(alloc, given.as_slice(), attributes)?;
        self.tell_all(alloc, given, all_in(attributes))
    }
}
