//! What targets name among some signals.

ghost use Rattle.std.specs.Prelude.{IfOk};
ghost use Rattle.placer.specs.Prelude.{signals_of, without_extension, view};
ghost use Rattle.placer.specs.Marks.{IsMarkOf};

use crate::marks::Marks;
use abel_tree::Expr;
use name_uses::{left_side_targets, targets_in};
use pld_base::OutOfMemory;
use std::alloc::Global;

impl Marks {
    /// What the target of an equation names, whose own extension counts for all of it.
    pub(crate) fn of_left_side(&self, alloc: Global, target: &Expr) -> Result<u32, OutOfMemory>
        ensures { IfOk result (IsMarkOf self.now (λ ks. signals_of ks (without_extension (view target.now)))) }
    {
        let uses = left_side_targets(alloc, target)?;
        self.of_uses(alloc, uses.as_slice())
    }

    /// What a target names itself: nothing by what has an extension.
    pub(crate) fn of_target(&self, alloc: Global, target: &Expr) -> Result<u32, OutOfMemory>
        ensures { IfOk result (IsMarkOf self.now (λ ks. signals_of ks (view target.now))) }
    {
        let uses = targets_in(alloc, target)?;
        self.of_uses(alloc, uses.as_slice())
    }
}
