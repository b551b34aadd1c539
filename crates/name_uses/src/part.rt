//! An expression of a section.

ghost use Rattle.std.specs.Prelude.{◌≡◌, IfOk};
ghost use Rattle.abel_tree.specs.View.{view};
ghost use Rattle.name_uses.specs.Parts.{part};
ghost use Rattle.name_uses.specs.Viewed.{view_part, view_role};

use crate::name_use::NameUse;
use crate::uses::names_used;
use abel_tree::{Expr, Sign};
use pld_base::OutOfMemory;
use std::alloc::Global;

/// What an expression is in its section.
#[derive(Clone, Copy)]
pub enum Role<'a> {
    /// The target of an equation with this sign.
    Target(Sign),
    /// The value of an equation with this target.
    Value(&'a Expr),
    /// What is read: a condition, the value of a goal, the inputs of a table.
    Read,
    /// The outputs of a table; whether they are assigned on the clock.
    Outputs(bool),
    /// The registers of a diagram.
    Registers,
    /// What reads no signal: the entries of rows, the values of states, the headers of vectors.
    Entry,
}

/// An expression of a section, with the names that it uses from the left.
#[derive(Drop)]
pub struct Part<'a> {
    pub role: Role<'a>,
    pub expr: &'a Expr,
    pub uses: Vec<NameUse<'a>>,
}

impl<'a> Part<'a> {
    /// The part that an expression is in this role.
    pub(crate) fn new(
        alloc: Global,
        role: Role<'a>,
        expr: &'a Expr,
    ) -> Result<Part<'a>, OutOfMemory>
        ensures { IfOk result (λ p. view_part p ≡ part (view_role role.entry) (view expr.now)) }
    {
        let uses = names_used(alloc, expr)?;
        Ok(Part { role, expr, uses })
    }
}
