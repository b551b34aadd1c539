//! What is said of a design that does not fit: each cell that is over its room.

ghost use Rattle.std.specs.Prelude.{◌≡◌, ◌≤◌, length};
ghost use Rattle.abel_tree.specs.View.{view_module};
ghost use Rattle.compile_phases.specs.Phases.{AreNamesFor};
ghost use Rattle.devices.specs.Models.{table_at};

use crate::pin_names::name_of_pin;
use crate::placed::placed_module;
use abel_tree::{Module, Names};
use abel_vectors::SourceSections;
use compile_phases::{
    CompileFault, device_named, modelled_of, module_of, names_of, netlist_of, parts_of, scope_of,
    sections_of,
};
use devices::loaded_at;
use fitter::{FitFault, Overfull, cells_over_room};
use name_uses::ModuleParts;
use pld_base::{ListOf, Model, OutOfMemory, put_decimal};
use pld_device::{Device, Loaded};
use std::alloc::Global;
use std::marker::Brand;

/// The cells that are over their room, none if the fit has another fault.
fn overfull_cells<'a, D: Device>(
    alloc: Global,
    device: &'a Loaded<D>,
    source: &ModuleParts<'_>,
    names: &'a Names,
) -> Result<ListOf<Overfull>, CompileFault>
    requires { AreNamesFor D.table (view_module source.now) names.now }
{
    let scope = scope_of::<D>(alloc, device, names)?;
    let SourceSections {
        contributions,
        vectors: _,
    } = sections_of::<D>(alloc, source, &scope)?;
    let net = netlist_of::<D>(alloc, source, &scope, contributions)?;
    match cells_over_room::<D>(alloc, device, &net) {
        Ok(list) => Ok(list),
        Err(FitFault::OutOfMemory) => Err(CompileFault::OutOfMemory),
        Err(_) => Ok(ListOf::from_vec(Vec::new(alloc))),
    }
}

/// Appends the line on a cell.
fn put_cell(
    alloc: Global,
    text: &mut Vec<u8>,
    names: &Names,
    over: Overfull,
) -> Result<(), OutOfMemory> {
    text.extend_from_slice(b"pin ")?;
    put_decimal(alloc, text, usize::from(over.pin))?;
    text.push(b' ')?;
    text.extend_from_slice(name_of_pin(names, over.pin))?;
    text.extend_from_slice(b" takes ")?;
    put_decimal(alloc, text, over.rows)?;
    text.extend_from_slice(b" products and has room for ")?;
    put_decimal(alloc, text, usize::from(over.room))?;
    text.push(b'\n')?;
    Ok(())
}

/// Appends a line on each cell of a module that is over its room, on this model of its device.
fn put_cells<D: Device>(
    alloc: Global,
    model: Model,
    text: &mut Vec<u8>,
    module: Module,
) -> Result<(), CompileFault>
    requires { table_at model ≡ D.table }
{
    let device = loaded_at::<D>(model);
    let placed = placed_module::<D>(alloc, &device, module)?;
    let source = parts_of(alloc, &placed)?;
    let names = names_of::<D>(alloc, &device, &source)?;
    let cells = overfull_cells::<D>(alloc, &device, &source, &names)?;
    for over in cells.as_slice() {
        put_cell(alloc, text, &names, *over)?;
    }
    Ok(())
}

/// Appends a line on each cell of a source that is over its room.
fn put_source_cells(alloc: Global, text: &mut Vec<u8>, bytes: &[u8]) -> Result<(), CompileFault>
    requires { length bytes.now ≤ 1048576 }
{
    let module = module_of(alloc, bytes)?;
    let device = device_named(alloc, &module)?;
    let modelled = modelled_of(alloc, device, &module)?;
    put_cells::<Brand>(alloc, modelled.model, text, module)
}

/// Appends a line on each cell that is over its room, of a source that does not fit; nothing of one that is refused before.
pub fn put_unfit(alloc: Global, text: &mut Vec<u8>, bytes: &[u8]) -> Result<(), OutOfMemory>
    requires { length bytes.now ≤ 1048576 }
{
    match put_source_cells(alloc, text, bytes) {
        Err(CompileFault::OutOfMemory) => Err(OutOfMemory),
        _ => Ok(()),
    }
}
