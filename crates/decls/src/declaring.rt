//! Declarations of pins, nodes and attributes.

ghost use Rattle.std.specs.Prelude.{◌≡◌, ◌≤◌, ◌⊎◌, OnOk, IfOk, List, ℕ, true, false, drop, fold, length};
ghost use Rattle.decls.specs.Prelude.{Table, numbers_of, SomeAttributes, SomeNodes, SomePins, given_names};
ghost use Rattle.decls.specs.Passed.{Follows, HasNumbers, Way};
ghost use Rattle.decls.specs.Shown.{view_said};
ghost use Rattle.decls.specs.Steps.{Progress};
ghost use Rattle.decls.specs.Walked.{declaration_step, node_step, pin_step, waits_if, with_numbers};

use crate::checks::{counts_differ, has_numbers};
use crate::items::{count_names, given_by_item};
use crate::pass::Pass;
use crate::said::Said;
use crate::saying::all_in;
use crate::spans::numbers_in;
use abel_tree::{Item, Span, Word};
use pld_base::OutOfMemory;
use std::alloc::Global;

/// So many numbers are written out at once where names may be left out. A device has far fewer pins,
/// and one item has fewer names.
const MANY: u128 = 65536;

/// Numbers of a pin declaration, written out for so many of its names.
#[derive(Drop)]
struct PinNumbers {
    list: Vec<u32>,
    room: u128,
}

/// What is left of numbers after the first ones.
fn numbers_after(numbers: &[u32], count: usize) -> &[u32]
    ensures { result.now ≡ drop count numbers.now }
{
    if count < numbers.len() {
        &numbers[count..]
    } else {
        &[]
    }
}

impl Pass {
    /// Declares pins.
    pub(crate) fn declare_pins(
        &mut self,
        alloc: Global,
        names: &[Item],
        numbers: &[Span],
        attributes: &[Word],
    ) -> Result<(), OutOfMemory>
        ensures { OnOk result ((w : Way) (s : Progress) → Follows w self.old s → Follows w self.new (declaration_step w.table s (SomePins names.now numbers.now attributes.now))) }
    {
        if self.skipped {
            self.leave_out(names, attributes);
            return Ok(());
        }
        let count = count_names(names);
        let wrong = counts_differ(names, count, numbers);
        self.table.check_new(alloc, wrong, names, attributes)?;
        let first = self.first_numbers(alloc, count, numbers)?;
        self.enter_pin_items(alloc, names, &first, all_in(attributes))?;
        self.wait_if(alloc, all_in(attributes).buffer, names)
    }

    /// How many numbers are written out at once.
    fn room_for(&self, count: u128) -> u128
        ensures within { result ≤ count }
        ensures whole { self.now.skips ≡ false → result ≡ count }
    {
        if self.skips && count > MANY {
            MANY
        } else {
            count
        }
    }

    /// The numbers of a declaration of so many names, as many of them as are written out at once.
    fn first_numbers(
        &self,
        alloc: Global,
        count: u128,
        numbers: &[Span],
    ) -> Result<PinNumbers, OutOfMemory>
        ensures { IfOk result (λ f. HasNumbers self.now.skips f.room f.list.items (numbers_of count numbers.now)) }
    {
        let room = self.room_for(count);
        let list = numbers_in(alloc, room, numbers)?;
        Ok(PinNumbers { list, room })
    }

    /// Declares the names of a pin declaration with the first of their numbers.
    fn enter_pin_items(
        &mut self,
        alloc: Global,
        names: &[Item],
        numbers: &PinNumbers,
        said: Said,
    ) -> Result<(), OutOfMemory>
        ensures { OnOk result ((w : Way) (s : Progress) (ns : List ℕ) → HasNumbers w.skips numbers.now.room numbers.now.list.items ns → self.old.skipped ≡ false → Follows w self.old s → Follows w self.new (fold (pin_step w.table (view_said said)) s (with_numbers (given_names names.now) ns))) }
    {
        let mut left = numbers.room;
        let mut rest = numbers.list.as_slice();
        for place in 0..names.len() {
            if self.stops_at_items(&names[place..]) {
                return Ok(());
            }
            let given = given_by_item(alloc, &names[place])?;
            if self.is_short(left, given.as_slice().len()) {
                return Ok(());
            }
            self.table.enter_pins(alloc, given.as_slice(), rest, said)?;
            left = left.saturating_sub(given.as_slice().len() as u128);
            rest = numbers_after(rest, given.as_slice().len());
        }
        Ok(())
    }

    /// Gives up if there are fewer numbers than names.
    fn is_short(&mut self, left: u128, count: usize) -> bool
        ensures lost { result ≡ true → (w : Way) (s n : Progress) → Follows w self.old s → Follows w self.new n }
        ensures goes { result ≡ false → self.new ≡ self.old }
        ensures enough { result ≡ false → (self.old.skips ≡ false) ⊎ (count ≤ left) }
    {
        if self.skips && count as u128 > left {
            self.leave(false);
            return true;
        }
        false
    }

    /// Declares nodes.
    pub(crate) fn declare_nodes(
        &mut self,
        alloc: Global,
        names: &[Item],
        numbers: &[Span],
        attributes: &[Word],
    ) -> Result<(), OutOfMemory>
        ensures { OnOk result ((w : Way) (s : Progress) → Follows w self.old s → Follows w self.new (declaration_step w.table s (SomeNodes names.now numbers.now attributes.now))) }
    {
        if self.skipped {
            self.leave_out(names, attributes);
            return Ok(());
        }
        self.table
            .check_new(alloc, has_numbers(numbers), names, attributes)?;
        self.enter_node_items(alloc, names, all_in(attributes))?;
        self.wait_if(alloc, all_in(attributes).buffer, names)
    }

    /// Declares the names of a node declaration.
    fn enter_node_items(
        &mut self,
        alloc: Global,
        names: &[Item],
        said: Said,
    ) -> Result<(), OutOfMemory>
        ensures { OnOk result ((w : Way) (s : Progress) → self.old.skipped ≡ false → Follows w self.old s → Follows w self.new (fold (node_step (view_said said)) s (given_names names.now))) }
    {
        for place in 0..names.len() {
            if self.stops_at_items(&names[place..]) {
                return Ok(());
            }
            let given = given_by_item(alloc, &names[place])?;
            self.table.enter_nodes(alloc, given.as_slice(), said)?;
        }
        Ok(())
    }

    /// The names of a declaration wait for what is assigned, if a string says `buffer`.
    fn wait_if(&mut self, alloc: Global, buffer: bool, names: &[Item]) -> Result<(), OutOfMemory>
        ensures { OnOk result ((w : Way) (s : Progress) → Follows w self.old s → Follows w self.new (waits_if buffer (given_names names.now) s)) }
    {
        if self.skipped || !buffer {
            return Ok(());
        }
        self.table.wait_for_items(alloc, names)
    }

    /// Adds words to what is said of names.
    pub(crate) fn declare_attributes(
        &mut self,
        alloc: Global,
        names: &[Item],
        attributes: &[Word],
    ) -> Result<(), OutOfMemory>
        ensures { OnOk result ((w : Way) (s : Progress) → Follows w self.old s → Follows w self.new (declaration_step w.table s (SomeAttributes names.now attributes.now))) }
    {
        if self.skipped {
            self.leave_out(names, attributes);
            return Ok(());
        }
        self.table.check_items(alloc, names)?;
        if self.stops_at_words(attributes) {
            return Ok(());
        }
        self.table.tell_items(alloc, names, attributes)
    }
}
