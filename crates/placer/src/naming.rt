//! Lists of a declaration's names: their numbers, and those that stay what they are.

ghost use Rattle.std.specs.Prelude.{◌≡◌, ◌++◌, ◌∷◌, [], IfOk, OnOk, is_some, unwrap_or, length, map};
ghost use Rattle.placer.specs.Prelude.{view_declared, given_names, view_given};
ghost use Rattle.placer.specs.Given.{AreKnown, IsEachPinned, items_left, node_given, pin_given};
ghost use Rattle.placer.specs.PlacedModule.{item_at, numbers_for, spans_for, unpinned_items};

use crate::pins::PlacedPins;
use crate::writing::{item_at, span_at};
use abel_tree::{Declared, Item, Span};
use decls::{Given, given_in};
use pld_base::{ListOf, OutOfMemory};
use std::alloc::Global;

/// The item of a name alone.
pub(crate) fn item_of(alloc: Global, name: &Given) -> Result<Item, OutOfMemory>
    ensures { IfOk result (λ i. i ≡ item_at name.now.place name.now.name.items name.now.negated) }
{
    item_at(alloc, name.place, name.name.as_slice(), name.negated)
}

impl PlacedPins {
    /// The number of a name, 0 if it was given none.
    fn number_of(&self, names: &[Declared], name: &Given) -> u32
        requires { IsEachPinned (length names.now) self.now }
        ensures { result ≡ unwrap_or (pin_given (map view_declared names.now) self.now name.now.name.items) 0 }
    {
        let pin = self.pin_of(names, name.name.as_slice());
        pin.unwrap_or(0)
    }

    /// The numbers of names.
    fn spans_of(
        &self,
        alloc: Global,
        names: &[Declared],
        given: &[Given],
    ) -> Result<ListOf<Span>, OutOfMemory>
        requires { IsEachPinned (length names.now) self.now }
        ensures { IfOk result (λ l. l ≡ spans_for (pin_given (map view_declared names.now) self.now) (map view_given given.now)) }
    {
        let mut spans = Vec::new(alloc);
        for one in given {
            let number = self.number_of(names, one);
            spans.push(span_at(one.place, number))?;
        }
        Ok(ListOf::from_vec(spans))
    }

    /// The numbers of a declaration's names.
    fn spans_for(
        &self,
        alloc: Global,
        names: &[Declared],
        items: &[Item],
    ) -> Result<ListOf<Span>, OutOfMemory>
        requires { IsEachPinned (length names.now) self.now }
        ensures { IfOk result (λ l. l ≡ spans_for (pin_given (map view_declared names.now) self.now) (given_names items.now)) }
    {
        let given = given_in(alloc, items)?;
        self.spans_of(alloc, names, given.as_slice())
    }

    /// The numbers that are there, or else those of the pins that the names were given.
    pub(crate) fn numbers_for(
        &self,
        alloc: Global,
        names: &[Declared],
        items: &[Item],
        numbers: ListOf<Span>,
    ) -> Result<ListOf<Span>, OutOfMemory>
        requires { IsEachPinned (length names.now) self.now }
        ensures { IfOk result (λ l. l ≡ numbers_for (pin_given (map view_declared names.now) self.now) items.now numbers) }
    {
        if numbers.as_slice().is_empty() {
            self.spans_for(alloc, names, items)
        } else {
            Ok(numbers)
        }
    }

    /// Whether a node becomes a pin.
    fn is_pinned(&self, names: &[Declared], name: &Given) -> bool
        requires { IsEachPinned (length names.now) self.now }
        ensures { AreKnown (map view_declared names.now) → result ≡ is_some (node_given (map view_declared names.now) self.now name.now.name.items) }
    {
        let pin = self.node_pin_of(names, name.name.as_slice());
        pin.is_some()
    }

    /// Adds the item of a name that stays what it is.
    fn add_unpinned(
        &self,
        alloc: Global,
        names: &[Declared],
        list: &mut Vec<Item>,
        name: &Given,
    ) -> Result<(), OutOfMemory>
        requires { IsEachPinned (length names.now) self.now }
        ensures { OnOk result (AreKnown (map view_declared names.now) → list.new.items ≡ list.old.items ++ items_left (node_given (map view_declared names.now) self.now) (view_given name.now ∷ [])) }
    {
        if self.is_pinned(names, name) {
            return Ok(());
        }
        let item = item_of(alloc, name)?;
        list.push(item)?;
        Ok(())
    }

    /// The names that stay what they are, one by one.
    fn unpinned_of(
        &self,
        alloc: Global,
        names: &[Declared],
        given: &[Given],
    ) -> Result<ListOf<Item>, OutOfMemory>
        requires { IsEachPinned (length names.now) self.now }
        ensures { IfOk result (λ l. AreKnown (map view_declared names.now) → l ≡ items_left (node_given (map view_declared names.now) self.now) (map view_given given.now)) }
    {
        let mut list = Vec::new(alloc);
        for one in given {
            self.add_unpinned(alloc, names, &mut list, one)?;
        }
        Ok(ListOf::from_vec(list))
    }

    /// The names of a declaration that stay what they are.
    pub(crate) fn unpinned_items(
        &self,
        alloc: Global,
        names: &[Declared],
        items: &[Item],
    ) -> Result<ListOf<Item>, OutOfMemory>
        requires { IsEachPinned (length names.now) self.now }
        ensures { IfOk result (λ l. AreKnown (map view_declared names.now) → l ≡ unpinned_items (node_given (map view_declared names.now) self.now) items.now) }
    {
        let given = given_in(alloc, items)?;
        self.unpinned_of(alloc, names, given.as_slice())
    }
}
