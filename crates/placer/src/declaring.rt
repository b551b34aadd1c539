//! Declarations with the pins that their names were given.

ghost use Rattle.std.specs.Prelude.{◌≡◌, ◌++◌, ◌∷◌, [], IfOk, OnOk, length, map};
ghost use Rattle.placer.specs.Prelude.{view_declared, SomeAttributes, SomePins, view_decl};
ghost use Rattle.placer.specs.Given.{AreKnown, IsEachPinned, declaration_given, declarations_given, node_given, pin_given};
ghost use Rattle.placer.specs.PlacedModule.{numbers_for, unpinned_items};

use crate::pins::PlacedPins;
use abel_tree::{Decl, Declared, Item, Span, Word};
use pld_base::{ListOf, OutOfMemory};
use std::alloc::Global;

impl PlacedPins {
    /// A declaration of pins, with their numbers.
    fn placed_pins(
        &self,
        alloc: Global,
        names: &[Declared],
        items: ListOf<Item>,
        numbers: ListOf<Span>,
        attributes: ListOf<Word>,
    ) -> Result<Vec<Decl>, OutOfMemory>
        requires { IsEachPinned (length names.now) self.now }
        ensures { IfOk result (λ v. map view_decl v.items ≡ SomePins items (numbers_for (pin_given (map view_declared names.now) self.now) items numbers) attributes ∷ []) }
    {
        let numbers = self.numbers_for(alloc, names, items.as_slice(), numbers)?;
        let decl = Decl::Pins {
            names: items,
            numbers,
            attributes,
        };
        alone(alloc, decl)
    }

    /// A declaration of attributes, without the nodes that become pins.
    fn placed_attributes(
        &self,
        alloc: Global,
        names: &[Declared],
        items: &[Item],
        attributes: ListOf<Word>,
    ) -> Result<Vec<Decl>, OutOfMemory>
        requires { IsEachPinned (length names.now) self.now }
        ensures { IfOk result (λ v. AreKnown (map view_declared names.now) → map view_decl v.items ≡ SomeAttributes (unpinned_items (node_given (map view_declared names.now) self.now) items.now) attributes ∷ []) }
    {
        let left = self.unpinned_items(alloc, names, items)?;
        let decl = Decl::Attributes {
            names: left,
            attributes,
        };
        alone(alloc, decl)
    }

    /// What represents a declaration.
    fn placed_declaration(
        &self,
        alloc: Global,
        names: &[Declared],
        decl: Decl,
    ) -> Result<Vec<Decl>, OutOfMemory>
        requires { IsEachPinned (length names.now) self.now }
        ensures { IfOk result (λ v. AreKnown (map view_declared names.now) → map view_decl v.items ≡ declaration_given (map view_declared names.now) self.now (view_decl decl)) }
    {
        match decl {
            Decl::Pins {
                names: items,
                numbers,
                attributes,
            } => self.placed_pins(alloc, names, items, numbers, attributes),
            Decl::Nodes {
                names: items,
                numbers: _,
                attributes,
            } => self.nodes(alloc, names, items.as_slice(), attributes.as_slice()),
            Decl::Attributes {
                names: items,
                attributes,
            } => self.placed_attributes(alloc, names, items.as_slice(), attributes),
            other => alone(alloc, other),
        }
    }

    /// What represents declarations.
    pub(crate) fn placed_declarations(
        &self,
        alloc: Global,
        names: &[Declared],
        decls: ListOf<Decl>,
    ) -> Result<ListOf<Decl>, OutOfMemory>
        requires { IsEachPinned (length names.now) self.now }
        ensures { IfOk result (λ l. AreKnown (map view_declared names.now) → map view_decl l ≡ declarations_given (map view_declared names.now) self.now (map view_decl decls)) }
    {
        let mut list = Vec::new(alloc);
        for decl in decls.into_vec() {
            let placed = self.placed_declaration(alloc, names, decl)?;
            append(&mut list, placed)?;
        }
        Ok(ListOf::from_vec(list))
    }
}

/// A declaration alone.
fn alone(alloc: Global, decl: Decl) -> Result<Vec<Decl>, OutOfMemory>
    ensures { IfOk result (λ v. v.items ≡ decl ∷ []) }
{
    let mut list = Vec::new(alloc);
    list.push(decl)?;
    Ok(list)
}

/// Adds declarations after others.
fn append(list: &mut Vec<Decl>, more: Vec<Decl>) -> Result<(), OutOfMemory>
    ensures { OnOk result (list.new.items ≡ list.old.items ++ more.items) }
{
    for decl in more {
        list.push(decl)?;
    }
    Ok(())
}
