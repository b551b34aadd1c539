//! From the bytes of a source to its fuse file.

ghost use Rattle.std.specs.Prelude.{◌≡◌, ◌≤◌, IfOk, IfErr, length, All};
ghost use Rattle.abel_compile.specs.Prelude.{IsPlainName, IsTestVector, entries_of, view_module, design_of, names_of, SpellsModule, table_at, AreDeclaredBy, AreNamesFor, IsNetlistFor, IsRefusedBy, IsRefusedFor, IsPlacedFor};
ghost use Rattle.abel_vectors.specs.AllSections.{AreSections};
ghost use Rattle.abel_compile.specs.Answers.{CompileAnswers, IsNeverRefused};
ghost use Rattle.abel_compile.specs.Statement.{IsRightFile};
ghost use Rattle.abel_compile.specs.Compiling.{IsCompiledOn};

use crate::compiled::Compiled;
use crate::laws::fits_are_right;
use crate::placed::PlacedModule;
use crate::telling::compiled_of;
use abel_tree::{Module, Names};
use abel_vectors::SourceSections;
use compile_phases::{
    CompileFault, Modelled, device_named, fitted_of, modelled_of, module_of, names_of, netlist_of,
    parts_of, placed_of, read_names_are_plain, scope_of, sections_of,
};
use devices::loaded_at;
use pld_base::Model;
use pld_device::{Device, Loaded};
use std::alloc::Global;
use std::marker::Brand;

/// The fuse file of a placed module for its device.
fn compile_placed<D: Device>(
    alloc: Global,
    placed: &PlacedModule<'_, D>,
) -> Result<Compiled, CompileFault>
    requires name { IsPlainName (view_module placed.now.module).name.text }
    requires names { AreNamesFor D.table (view_module placed.now.module) placed.now.names }
    ensures ok { IfOk result (λ c. IsCompiledOn D.table (entries_of placed.now.declared) placed.now.model (view_module placed.now.module) c) }
    ensures err { IfErr result (IsRefusedFor D.table (view_module placed.now.module)) }
{
    fits_are_right();
    let device = placed.device();
    let scope = scope_of::<D>(alloc, device, &placed.names)?;
    let SourceSections {
        contributions,
        vectors,
    } = sections_of::<D>(alloc, &placed.module, &scope)?;
    let net = netlist_of::<D>(alloc, &placed.module, &scope, contributions)?;
    let fitted = fitted_of::<D>(alloc, device, &placed.names, &net)?;
    let compiled = compiled_of::<D>(alloc, placed, &net, &fitted, vectors.as_slice())?;
    Ok(compiled)
}

/// The fuse file of a module for a device: of the placed module.
fn compile_module<D: Device>(
    alloc: Global,
    device: &Loaded<D>,
    model: Model,
    declared: Names,
    source: Module,
) -> Result<Compiled, CompileFault>
    requires plain { IsPlainName (view_module source).name.text }
    requires names { AreDeclaredBy D.table (view_module source) declared }
    ensures ok { IfOk result (λ c. IsPlacedFor (λ t m. IsCompiledOn t (names_of t (view_module source)) model m c) D.table (view_module source)) }
    ensures err { IfErr result (IsRefusedBy D.table (view_module source)) }
{
    let module = placed_of::<D>(alloc, device, source, &declared)?;
    let parts = parts_of(alloc, &module)?;
    let names = names_of::<D>(alloc, device, &parts)?;
    let placed = PlacedModule {
        device,
        model,
        module: parts,
        declared,
        names,
    };
    compile_placed::<D>(alloc, &placed)
}

/// The fuse file of a module, which declares these names, for this model of its device.
fn compile_for<D: Device>(
    alloc: Global,
    model: Model,
    names: Names,
    source: Module,
) -> Result<Compiled, CompileFault>
    requires table { table_at model ≡ D.table }
    requires plain { IsPlainName (view_module source).name.text }
    requires names { AreDeclaredBy D.table (view_module source) names }
    ensures ok { IfOk result (λ c. IsPlacedFor (λ t m. IsCompiledOn t (names_of t (view_module source)) model m c) D.table (view_module source)) }
    ensures err { IfErr result (IsRefusedBy D.table (view_module source)) }
{
    compile_module::<D>(alloc, &loaded_at::<D>(model), model, names, source)
}

/// The fuse file of a source for the device that it names, in the mode that it asks for, with its listing and its summary; or
/// the first refusal, with the report on it.
///
/// The text has at most 1,048,576 bytes.
pub fn compile(alloc: Global, bytes: &[u8]) -> Result<Compiled, CompileFault>
    requires { length bytes.now ≤ 1048576 }
    // The main theorem: the file is right for the source, with fuses that do what it says.
    ensures right { IfOk result (λ c.
        IsRightFile SpellsModule table_at bytes.now c.device c.file.items) }
    // What else holds of it; each refusal has its cause.
    ensures answers { CompileAnswers bytes.now result }
    // A source that is accepted and fits as it is written is never refused.
    ensures complete { IsNeverRefused bytes.now result }
{
    read_names_are_plain();
    let module = module_of(alloc, bytes)?;
    let device = device_named(alloc, &module)?;
    let modelled = modelled_of(alloc, device, &module)?;
    let Modelled { model, names } = modelled;
    compile_for::<Brand>(alloc, model, names, module)
}
