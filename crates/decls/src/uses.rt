//! Names that expressions and sections use.

ghost use Rattle.std.specs.Prelude.{◌≡◌, OnOk, fold, map};
ghost use Rattle.decls.specs.Prelude.{all_uses, view, view_part, view_use};
ghost use Rattle.decls.specs.PartUses.{name_step, part_step, value_step};
ghost use Rattle.decls.specs.Passed.{Follows, Way};
ghost use Rattle.decls.specs.Steps.{Progress, used};

use crate::pass::Pass;
use abel_tree::Expr;
use name_uses::{NameUse, Part, names_used};
use pld_base::OutOfMemory;
use std::alloc::Global;

impl Pass {
    /// Refuses a name that isn't known, or a range.
    fn use_one(&mut self, alloc: Global, name: &NameUse<'_>) -> Result<(), OutOfMemory>
        ensures { OnOk result ((w : Way) (s : Progress) → Follows w self.old s
            → Follows w self.new (name_step s (view_use name.now))) }
    {
        match name.last {
            None => self.use_name(alloc, name.first),
            Some(last) => self.use_range(alloc, name.first, last),
        }
    }

    /// Refuses names that aren't known, and ranges.
    fn use_names(&mut self, alloc: Global, names: &[NameUse<'_>]) -> Result<(), OutOfMemory>
        ensures { OnOk result ((w : Way) (s : Progress) → Follows w self.old s
            → Follows w self.new (fold name_step s (map view_use names.now))) }
    {
        for name in names {
            self.use_one(alloc, name)?;
        }
        Ok(())
    }

    /// Refuses the names of an expression that aren't known.
    fn use_value(&mut self, alloc: Global, value: &Expr) -> Result<(), OutOfMemory>
        ensures { OnOk result ((w : Way) (s : Progress) → Follows w self.old s
            → Follows w self.new (value_step s (view value.now))) }
    {
        let names = names_used(alloc, value)?;
        self.use_names(alloc, names.as_slice())
    }

    /// Refuses the names of expressions that aren't known.
    pub(crate) fn use_values(&mut self, alloc: Global, values: &[Expr]) -> Result<(), OutOfMemory>
        ensures { OnOk result ((w : Way) (s : Progress) → Follows w self.old s
            → Follows w self.new (fold used s (all_uses (map view values.now)))) }
    {
        for value in values {
            self.use_value(alloc, value)?;
        }
        Ok(())
    }

    /// Refuses the names of a part of a section that aren't known.
    fn use_part(&mut self, alloc: Global, part: &Part<'_>) -> Result<(), OutOfMemory>
        ensures { OnOk result ((w : Way) (s : Progress) → Follows w self.old s
            → Follows w self.new (part_step s (view_part part.now))) }
    {
        self.use_names(alloc, part.uses.as_slice())
    }

    /// Refuses the names of the parts of a section that aren't known.
    pub(crate) fn use_parts(&mut self, alloc: Global, parts: &[Part<'_>]) -> Result<(), OutOfMemory>
        ensures { OnOk result ((w : Way) (s : Progress) → Follows w self.old s
            → Follows w self.new (fold part_step s (map view_part parts.now))) }
    {
        for part in parts {
            self.use_part(alloc, part)?;
        }
        Ok(())
    }
}
