//! Names of ranges that must be known.

ghost use Rattle.std.specs.Prelude.{◌≡◌, OnOk, map};
ghost use Rattle.decls.specs.Prelude.{Table, ends_agree, name_items};
ghost use Rattle.decls.specs.Shown.{Shows, wanted};
ghost use Rattle.decls.specs.Steps.{Progress, range_used, all_known};

use crate::fault::NameFault;
use crate::table::NameTable;
use abel_tree::Word;
use name_uses::names_of_range;
use pld_base::{NameText, OutOfMemory, Place};
use std::alloc::Global;

impl NameTable {
    /// Refuses a range whose ends don't agree, or its first name that isn't known.
    pub(crate) fn require_range(
        &mut self,
        alloc: Global,
        first: &Word,
        last: &Word,
    ) -> Result<(), OutOfMemory>
        ensures { OnOk result ((t : Table) (s : Progress) → Shows t self.old s → Shows t self.new (range_used (ends_agree first.now.text last.now.text) first.now last.now s)) }
    {
        match names_of_range(alloc, first.text.bytes(), last.text.bytes())? {
            Some(names) => {
                self.require_all(alloc, first.place, names.as_slice(), false)?;
                Ok(())
            }
            None => {
                self.refuse(NameFault::BadRange(first.place));
                Ok(())
            }
        }
    }

    /// Refuses the first of these names that isn't known.
    pub(crate) fn require_all(
        &mut self,
        alloc: Global,
        place: Place,
        names: &[Vec<u8>],
        signal: bool,
    ) -> Result<(), OutOfMemory>
        ensures { OnOk result ((t : Table) (s : Progress) → Shows t self.old s → Shows t self.new (all_known (wanted signal) place (map name_items names.now) s)) }
    {
        for name in names {
            if !self.is_known(name.as_slice(), signal) {
                let text = NameText::new(alloc, name.as_slice())?;
                self.refuse(NameFault::Undeclared(place, text));
                return Ok(());
            }
        }
        Ok(())
    }
}
