//! What is answered of the fuses of a source.

ghost use Rattle.std.specs.Prelude.{◌≡◌, ◌≤◌, All, IfOk, length};
ghost use Rattle.abel_compile.specs.Prelude.{IsPlainName, IsTestVector, all_chars, entries_of, view_module, source_vectors, IsFitOf, AreNamesFor, IsNetlistFor};
ghost use Rattle.abel_compile.specs.Compiling.{IsToldOf};

use crate::compiled::Compiled;
use crate::placed::PlacedModule;
use bit_expr::Netlist;
use compile_phases::fits_can_be_told;
use fitter::Fitted;
use fuse_listing::listing;
use jedec_writer::write;
use pld_base::{OutOfMemory, Vector};
use pld_device::Device;
use reports::summary;
use std::alloc::Global;

/// The file, the listing and the summary of the fuses of a source.
pub(crate) fn compiled_of<D: Device>(
    alloc: Global,
    placed: &PlacedModule<'_, D>,
    net: &Netlist,
    fitted: &Fitted,
    vectors: &[Vector],
) -> Result<Compiled, OutOfMemory>
    requires name { IsPlainName (view_module placed.now.module).name.text }
    requires names { AreNamesFor D.table (view_module placed.now.module) placed.now.names }
    requires netlist { IsNetlistFor D.table (view_module placed.now.module) net.now }
    requires fits { IsFitOf D.table net.now fitted.now }
    requires vectors { all_chars D.table vectors.now ≡ source_vectors D.table (view_module placed.now.module) }
    requires few { length vectors.now ≤ 9999 }
    requires chars { All (IsTestVector D.table) vectors.now }
    ensures device { IfOk result (λ c. c.device ≡ placed.now.model) }
    ensures told { IfOk result (λ c. IsToldOf D.table (entries_of placed.now.declared) (view_module placed.now.module) fitted.now.fuses c) }
{
    fits_can_be_told();
    let device = placed.device;
    let fuses = &fitted.fuses;
    Ok(Compiled {
        device: placed.model,
        file: write::<D>(
            alloc,
            device,
            placed.module.module().name.text.bytes(),
            fuses,
            vectors,
        )?,
        listing: listing::<D>(alloc, device, &placed.declared, &placed.names, fuses)?,
        summary: summary::<D>(alloc, device, net, fuses)?,
    })
}
