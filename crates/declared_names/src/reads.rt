//! The names that are used, marked by their numbers.

ghost use Rattle.std.specs.Prelude.{◌≡◌, OnOk, map};
ghost use Rattle.declared_names.specs.Prelude.{asks_q, view_use};
ghost use Rattle.declared_names.specs.{AreMarked, use_reads, uses_read};

use crate::marks::{Mark, mark_number};
use crate::numbers::FirstNames;
use abel_tree::Extension;
use name_uses::{NameUse, range_list};
use pld_base::OutOfMemory;
use std::alloc::Global;

/// Whether what has this extension is read with `.Q` after it; without one it is if that around it is.
fn asks_q(as_q: bool, extension: Option<Extension>) -> bool
    ensures { result ≡ asks_q as_q extension }
{
    match extension {
        None => as_q,
        Some(Extension::Q) => true,
        Some(_) => false,
    }
}

impl FirstNames<'_> {
    /// Marks the names that are used, strongly those whose extension says so, or those without one if all are asked so.
    pub(crate) fn mark_uses(
        &self,
        alloc: Global,
        marks: &mut Vec<Mark>,
        strong: bool,
        uses: &[NameUse<'_>],
    ) -> Result<(), OutOfMemory>
        ensures { OnOk result (AreMarked self.now marks.old.items marks.new.items
            (λ of. uses_read of strong (map view_use uses.now))) }
    {
        for used in uses {
            self.mark_use(alloc, marks, strong, used)?;
        }
        Ok(())
    }

    /// Marks a name that is used, or the names of a range.
    fn mark_use(
        &self,
        alloc: Global,
        marks: &mut Vec<Mark>,
        strong: bool,
        used: &NameUse<'_>,
    ) -> Result<(), OutOfMemory>
        ensures { OnOk result (AreMarked self.now marks.old.items marks.new.items
            (λ of. use_reads of strong (view_use used.now))) }
    {
        let asked = asks_q(strong, used.extension);
        let first = used.first.text.bytes();
        let Some(last) = used.last else {
            self.mark_name(marks, asked, first);
            return Ok(());
        };
        let range = range_list(alloc, first, last.text.bytes())?;
        let names = range.as_slice();
        for name in names {
            self.mark_name(marks, asked, name.as_slice());
        }
        Ok(())
    }

    /// Marks a name, if its number is below the limit.
    fn mark_name(&self, marks: &mut Vec<Mark>, strong: bool, name: &[u8])
        ensures { AreMarked self.now marks.old.items marks.new.items (λ of. of name.now strong) }
    {
        if let Some(number) = self.numbers.map.get(name) {
            if *number < self.limit {
                mark_number(marks, *number, strong);
            }
        }
    }
}
