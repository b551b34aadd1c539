//! Names of constants and of the device.

ghost use Rattle.std.specs.Prelude.{◌≡◌, OnOk};
ghost use Rattle.decls.specs.Prelude.{Table, view};
ghost use Rattle.decls.specs.Steps.{Progress, constant_entered, device_counted, device_entered};
ghost use Rattle.decls.specs.Shown.{Shows};

use crate::fault::NameFault;
use crate::said::NOTHING;
use crate::table::{Known, NameTable};
use abel_tree::{Expr, Meaning, Word};
use pld_base::{NameText, OutOfMemory};
use std::alloc::Global;

impl NameTable {
    /// Declares a constant.
    pub(crate) fn declare_constant(
        &mut self,
        alloc: Global,
        name: &Word,
        value: &Expr,
    ) -> Result<(), OutOfMemory>
        ensures { OnOk result ((t : Table) (s : Progress) → Shows t self.old s → Shows t self.new (constant_entered name.now (view value.now) s)) }
    {
        let meaning = Meaning::Constant(value.copy(alloc)?);
        self.enter(
            alloc,
            name.text.bytes(),
            Known {
                place: name.place,
                meaning,
                said: NOTHING,
            },
        )?;
        Ok(())
    }

    /// A DEVICE declaration is refused if one was earlier.
    fn count_device(&mut self, alloc: Global, name: &Word) -> Result<(), OutOfMemory>
        ensures { OnOk result ((t : Table) (s : Progress) → Shows t self.old s → Shows t self.new (device_counted name.now s)) }
    {
        if self.has_device {
            let text = NameText::new(alloc, name.text.bytes())?;
            self.refuse(NameFault::Redeclared(name.place, text));
        }
        self.has_device = true;
        Ok(())
    }

    /// Declares the name of the device.
    pub(crate) fn declare_device(&mut self, alloc: Global, name: &Word) -> Result<(), OutOfMemory>
        ensures { OnOk result ((t : Table) (s : Progress) → Shows t self.old s → Shows t self.new (device_entered name.now s)) }
    {
        self.count_device(alloc, name)?;
        self.enter(
            alloc,
            name.text.bytes(),
            Known {
                place: name.place,
                meaning: Meaning::DeviceName,
                said: NOTHING,
            },
        )?;
        Ok(())
    }
}
