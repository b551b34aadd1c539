//! The model of a device that a module asks for.

ghost use Rattle.std.specs.Prelude.{◌≡◌, Some, IfOk, IfErr};
ghost use Rattle.abel_tree.specs.View.{view_module};
ghost use Rattle.devices.specs.Devices.{table_of};
ghost use Rattle.devices.specs.Models.{table_at};
ghost use Rattle.compile_phases.specs.Prelude.{first_name_refusal, model_of};
ghost use Rattle.compile_phases.specs.Phases.{AreDeclaredBy, IsModelled, IsNameFault, IsOfSource};

use crate::fault::CompileFault;
use crate::phases::{declared_of, parts_of};
use abel_tree::{Module, Names};
use decls::names_are_refused_alike;
use devices::loaded;
use model_choice::wanted_model;
use name_uses::ModuleParts;
use pld_base::{DeviceName, Model};
use pld_device::Device;
use std::alloc::Global;
use std::marker::Brand;

/// The names that a module declares, and the model that it asks for of the device that it names.
#[derive(Drop)]
pub struct Modelled {
    pub model: Model,
    pub names: Names,
}

/// The names for a device, which are the same in all its modes.
fn names_for<D: Device>(
    alloc: Global,
    name: DeviceName,
    source: &ModuleParts<'_>,
) -> Result<Names, CompileFault>
    requires table { table_of name ≡ D.table }
    ensures ok { IfOk result (AreDeclaredBy D.table (view_module source.now)) }
    ensures err { IfErr result (IsOfSource (IsNameFault (λ f.
        first_name_refusal D.table (view_module source.now) ≡ Some f))) }
{
    declared_of::<D>(alloc, &loaded::<D>(name), source)
}

/// The names that a module declares for the device that it names, and the model that it asks for.
pub fn modelled_of(
    alloc: Global,
    name: DeviceName,
    module: &Module,
) -> Result<Modelled, CompileFault>
    ensures ok { IfOk result (IsModelled name (view_module module.now)) }
    ensures err { IfErr result (IsOfSource (IsNameFault (λ f.
        first_name_refusal (table_at (model_of (view_module module.now) name)) (view_module module.now) ≡ Some f))) }
{
    names_are_refused_alike();
    let source = parts_of(alloc, module)?;
    let names = names_for::<Brand>(alloc, name, &source)?;
    let model = wanted_model(alloc, name, names.list.as_slice(), &source)?;
    Ok(Modelled { model, names })
}
