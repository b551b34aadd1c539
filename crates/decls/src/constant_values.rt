//! The names of constants, which get their values.

ghost use Rattle.std.specs.Prelude.{◌≡◌, OnOk, Option, List, ℕ, fold, map, zip, slice_get};
ghost use Rattle.decls.specs.Prelude.{view};
ghost use Rattle.decls.specs.Passed.{Follows, Way};
ghost use Rattle.decls.specs.Steps.{Progress};
ghost use Rattle.decls.specs.Walked.{constant_at, constant_step};

use crate::pass::Pass;
use abel_tree::{Expr, Word};
use pld_base::OutOfMemory;
use std::alloc::Global;

impl Pass {
    /// Declares constants, as many as there are values.
    pub(crate) fn declare_values(
        &mut self,
        alloc: Global,
        names: &[Word],
        values: &[Expr],
    ) -> Result<(), OutOfMemory>
        ensures { OnOk result ((w : Way) (s : Progress) → Follows w self.old s → Follows w self.new (fold constant_step s (zip names.now (map view values.now)))) }
    {
        for (place, name) in names.iter().enumerate() {
            self.declare_value(alloc, name, values, place)?;
        }
        Ok(())
    }

    /// Declares a constant, if there is a value at its place.
    fn declare_value(
        &mut self,
        alloc: Global,
        name: &Word,
        values: &[Expr],
        place: usize,
    ) -> Result<(), OutOfMemory>
        ensures { OnOk result ((w : Way) (s : Progress) → Follows w self.old s → Follows w self.new (constant_at name.now (slice_get (map view values.now) place) s)) }
    {
        if place < values.len() {
            self.enter_constant(alloc, name, &values[place])?;
        }
        Ok(())
    }
}
