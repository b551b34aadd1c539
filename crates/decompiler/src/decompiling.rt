//! From a device's fuses to the text of a source.

ghost use Rattle.std.specs.Prelude.{◌≡◌, IfErr, IfOk, length};
ghost use Rattle.decompiler.specs.Prelude.{HasNoLoop, cell_reads, HasNoResetPath, decompiled_text, source_of};
ghost use Rattle.device_logic.specs.LoadFaults.{IsLoadFault};
ghost use Rattle.decompiler.specs.Reading.{IsDecompiled, IsReadAsSource};

use crate::device_fuses::DeviceFuses;
use crate::source_laws::sources_are_right;
use decompiled::PinSource;
use device_logic::{SimFault, load};
use pld_base::{ListOf, OutOfMemory};
use pld_device::{Device, Fuses, Loaded};
use std::alloc::Global;

impl<'a, D: Device> DeviceFuses<'a, D> {
    /// The source.
    fn source(&self, alloc: Global) -> Result<PinSource, OutOfMemory>
        ensures { IfOk result (λ source. source ≡ source_of D.table self.now) }
    {
        let lines = self.lines(alloc)?;
        let pins = self.pins(alloc, &lines)?;
        Ok(PinSource {
            device: self.device().name(),
            pins: ListOf::from_vec(pins),
            lines: ListOf::from_vec(lines),
        })
    }
}

/// The text of a source that says what the fuses say: its pins, a sum of products for each cell that drives its pin or
/// stores, and the rows that enable, reset and preset. Vectors and a signature are no part of it.
///
/// The device is loaded first, and a fault is the one of `load`.
pub fn decompile<D: Device>(
    alloc: Global,
    device: &Loaded<D>,
    fuses: &Fuses,
) -> Result<Vec<u8>, SimFault>
    requires { length fuses.now ≡ D.table.fuses }
    ensures text { IfOk result (λ text. text.items ≡ decompiled_text D.table fuses.now) }
    ensures read { IfOk result (λ text. IsReadAsSource D.table fuses.now text.items) }
    ensures right { IfOk result (λ text. IsDecompiled D.table fuses.now text.items) }
    ensures no_loop { IfOk result (λ _. HasNoLoop (length D.table.cells) (cell_reads D.table fuses.now)) }
    ensures no_path { IfOk result (λ _. HasNoResetPath D.table fuses.now) }
    ensures refused { IfErr result (IsLoadFault D.table fuses.now) }
{
    sources_are_right();
    load::<D>(alloc, device, fuses)?;
    let fuses = DeviceFuses::<D>::new(alloc, device, fuses)?;
    let text = fuses.source(alloc)?.text(alloc)?;
    Ok(text)
}
