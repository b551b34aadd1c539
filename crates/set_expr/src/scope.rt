//! The names that the expressions of a source are over.

ghost use Rattle.std.specs.Prelude.{◌≡◌, [], Some, IfOk, OnOk, IfErr};
ghost use Rattle.set_expr.specs.Prelude.{entries_of, find, first_refusal, view};
ghost use Rattle.set_expr.specs.{constants_refused, expression_found, found_use, name_found, named, names_found, IsKnownIf, IsPlaced, SumsUp, AreInOrder, ArePlaced, section_order};

use crate::checked::Checked;
use crate::checking::checked_name;
use crate::fault::SectionFault;
use crate::known::KnownNames;
use crate::known_name::KnownName;
use crate::learning::known_names;
use crate::walking::check_expr;
use abel_tree::{Declared, Expr, Names};
use pld_base::{OutOfMemory, Place};
use std::alloc::Global;
use std::marker::Model;

/// The names of a source, with what is known of each, learnt once for all its expressions. A contract sees the names.
#[derive(Drop)]
pub struct Scope<'a> {
    names: &'a Names,
    known: KnownNames,
}

impl<'a> Model for Scope<'a> {
    ghost use Rattle.abel_tree.specs.Entries.{entries_of};
    ghost use Rattle.abel_tree.specs.contracts.expressions.Expr as expression;
    ghost use Rattle.abel_tree.specs.declared.names.Names.{Names};
    ghost use Rattle.set_expr.specs.KnownNames.{IsKnown};
    ghost use Rattle.set_expr.specs.Scopes.{AreInOrder, ArePlaced};
    ghost use Rattle.std.specs.Coded.{codes};

    ghost Value = { Names };

    ghost coded = { Prim.hlevel (codes, expression.the_row.coded) };

    ghost view = { λ s. s.names.now };

    ghost invariant = { λ s. IsKnown (entries_of s.names.now) s.known × ArePlaced s.names.now × AreInOrder (entries_of s.names.now) };
}

impl<'a> Scope<'a> {
    /// All names of a source. Each constant is checked once.
    pub fn new(alloc: Global, names: &'a Names) -> Result<Scope<'a>, OutOfMemory>
        requires placed { ArePlaced names.now }
        requires order { AreInOrder (entries_of names.now) }
        ensures { IfOk result (λ s. s ≡ names.now) }
    {
        let known = known_names(alloc, names)?;
        Ok(Scope { names, known })
    }

    /// The names.
    pub fn names(&self) -> &'a Names
        ensures { result.now ≡ self.now }
    {
        self.names
    }

    /// What each name is declared as, in the order of declaration.
    pub fn list(&self) -> &'a [Declared]
        ensures { result.now ≡ self.now.list }
    {
        self.names.list.as_slice()
    }

    /// Pins are below 32, nodes below 128: this does nothing, and states it.
    pub fn are_placed(&self)
        ensures { ArePlaced self.now }
    {
        let _names = self.names;
    }

    /// A constant names earlier names alone: this does nothing, and states it.
    pub fn are_in_order(&self)
        ensures { AreInOrder (entries_of self.now) }
    {
        let _names = self.names;
    }

    /// What is known of the name with this text; none of one that is not declared. Takes no memory.
    pub fn get(&self, text: &[u8]) -> Option<KnownName>
        ensures found { IsKnownIf result (named (names_found (entries_of self.now)) text.now) }
        ensures place { IsPlaced result (find (entries_of self.now) text.now) }
    {
        self.known.get(text)
    }

    /// What is found of the name with this text, used at this place; one that is not declared is a number. Takes no memory.
    pub fn check_name(&self, text: &[u8], place: Place) -> Checked
        ensures { SumsUp result (found_use place (name_found (names_found (entries_of self.now)) text.now)) }
    {
        checked_name(&self.known, text, place)
    }

    /// What is found of an expression: its first refusal, or its shape and the first of its X positions. Calls go as deep
    /// as the nestings, however many operators are in a row, and constants are looked up.
    pub fn check(&self, alloc: Global, expr: &Expr) -> Result<Checked, OutOfMemory>
        ensures { IfOk result (λ c. SumsUp c (expression_found (entries_of self.now) (view expr.now))) }
    {
        check_expr(alloc, &self.known, expr)
    }

    /// Refuses the first constant, by place, whose expression has no shape and isn't `.C.` or `.Z.`. Takes no memory
    /// and makes no node.
    pub fn check_constants(&self) -> Result<(), SectionFault>
        ensures accepted { OnOk result (constants_refused (entries_of self.now) ≡ []) }
        ensures refused { IfErr result (λ fault. first_refusal section_order (constants_refused (entries_of self.now)) ≡ Some fault) }
    {
        match self.known.fault() {
            Some(fault) => Err(fault),
            None => Ok(()),
        }
    }
}
