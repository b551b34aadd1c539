//! Declarations of nodes with the pins that some of them become.

ghost use Rattle.std.specs.Prelude.{◌≡◌, IfOk, length, map};
ghost use Rattle.placer.specs.Prelude.{view_declared, view_decl, given_names, view_given};
ghost use Rattle.placer.specs.Given.{AreKnown, IsEachPinned, node_given};
ghost use Rattle.placer.specs.PlacedModule.{node_alone, node_declaration, node_pinned};
ghost use Rattle.placer.specs.Placements.{dc_of};

use crate::naming::item_of;
use crate::pins::{PlacedPins, dc_of};
use crate::writing::{copies, item_at, only, register_string, span_at, word_at};
use abel_tree::{Decl, Declared, Item, Word};
use decls::{Given, given_in};
use pld_base::{ListOf, OutOfMemory};
use std::alloc::Global;

/// The declaration of a node that stays one.
fn node_alone(alloc: Global, attributes: &[Word], node: &Given) -> Result<Decl, OutOfMemory>
    ensures { IfOk result (λ d. view_decl d ≡ node_alone attributes.now (view_given node.now)) }
{
    let name = item_of(alloc, node)?;
    let names = only(alloc, name)?;
    let numbers = ListOf::from_vec(Vec::new(alloc));
    let attributes = copies(alloc, attributes)?;
    Ok(Decl::Nodes {
        names,
        numbers,
        attributes,
    })
}

/// The declaration of the pin that a node becomes.
fn node_pinned(alloc: Global, dc: bool, node: &Given, pin: u32) -> Result<Decl, OutOfMemory>
    ensures { IfOk result (λ d. view_decl d ≡ node_pinned dc (view_given node.now) pin) }
{
    let name = item_at(alloc, node.place, node.name.as_slice(), false)?;
    let names = only(alloc, name)?;
    let number = span_at(node.place, pin);
    let numbers = only(alloc, number)?;
    let said = word_at(alloc, node.place, register_string(dc))?;
    let attributes = only(alloc, said)?;
    Ok(Decl::Pins {
        names,
        numbers,
        attributes,
    })
}

impl PlacedPins {
    /// The declaration of one node, or of the pin that it becomes.
    fn node_declaration(
        &self,
        alloc: Global,
        names: &[Declared],
        attributes: &[Word],
        node: &Given,
    ) -> Result<Decl, OutOfMemory>
        requires { IsEachPinned (length names.now) self.now }
        ensures { IfOk result (λ d. AreKnown (map view_declared names.now) → view_decl d ≡ node_declaration (node_given (map view_declared names.now) self.now) (dc_of (map view_declared names.now)) attributes.now (view_given node.now)) }
    {
        let name = node.name.as_slice();
        match self.node_pin_of(names, name) {
            Some(pin) => node_pinned(alloc, dc_of(names, name), node, pin),
            None => node_alone(alloc, attributes, node),
        }
    }

    /// Nodes one by one, each as its declaration or that of the pin that it becomes.
    fn nodes_of(
        &self,
        alloc: Global,
        names: &[Declared],
        attributes: &[Word],
        nodes: &[Given],
    ) -> Result<Vec<Decl>, OutOfMemory>
        requires { IsEachPinned (length names.now) self.now }
        ensures { IfOk result (λ v. AreKnown (map view_declared names.now) → map view_decl v.items ≡ map (node_declaration (node_given (map view_declared names.now) self.now) (dc_of (map view_declared names.now)) attributes.now) (map view_given nodes.now)) }
    {
        let mut list = Vec::new(alloc);
        for node in nodes {
            let decl = self.node_declaration(alloc, names, attributes, node)?;
            list.push(decl)?;
        }
        Ok(list)
    }

    /// The nodes of a declaration.
    pub(crate) fn nodes(
        &self,
        alloc: Global,
        names: &[Declared],
        items: &[Item],
        attributes: &[Word],
    ) -> Result<Vec<Decl>, OutOfMemory>
        requires { IsEachPinned (length names.now) self.now }
        ensures { IfOk result (λ v. AreKnown (map view_declared names.now) → map view_decl v.items ≡ map (node_declaration (node_given (map view_declared names.now) self.now) (dc_of (map view_declared names.now)) attributes.now) (given_names items.now)) }
    {
        let given = given_in(alloc, items)?;
        self.nodes_of(alloc, names, attributes, given.as_slice())
    }
}
