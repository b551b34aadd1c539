//! The mode that a module asks for, with its set of cells.

ghost use Rattle.std.specs.Prelude.{◌≡◌, ◌≤◌, ◌++◌, ◌-◌, IfOk, length, map, take};
ghost use Rattle.std.specs.List.{list_any};
ghost use Rattle.abel_tree.specs.declared.names.Declared.{Declared};
ghost use Rattle.abel_tree.specs.Entries.{is_stored, view_declared};
ghost use Rattle.abel_tree.specs.View.{view_module};
ghost use Rattle.abel_meaning.specs.Models.{chip_model, chosen_cells, driven_cells, model_for, registered_cells};

use crate::cells::{Wanted, free_cells, middle_or_others, set_of};
use crate::outputs::{count_registers, outputs, unread};
use crate::reads::{is_simple, reads_either};
use abel_tree::Declared;
use name_uses::ModuleParts;
use pld_base::{DeviceName, Model, OutOfMemory};
use std::alloc::Global;

/// Which cells are registers.
fn registered_cells(alloc: Global, top: u8, names: &[Declared]) -> Result<[bool; 8], OutOfMemory>
    requires { 7 ≤ top }
    ensures { IfOk result (λ set. set ≡ registered_cells top (map view_declared names.now)) }
{
    let mut chosen = free_cells(alloc, top, names)?;
    chosen.truncate(count_registers(names));
    Ok(set_of(top, names, Wanted::Registers, chosen.as_slice()))
}

/// Free cells for so many signals: all of these in the middle, and as many others as are wanted beside them.
fn chosen_cells(middle: Vec<u8>, others: Vec<u8>, count: usize) -> Result<Vec<u8>, OutOfMemory>
    ensures { IfOk result (λ v. v.items ≡ chosen_cells middle.items others.items count) }
{
    let mut more = others;
    more.truncate(count.saturating_sub(middle.len()));
    let mut chosen = middle;
    chosen.extend_from_slice(more.as_slice())?;
    Ok(chosen)
}

/// Which cells drive in simple mode.
fn driven_cells(
    alloc: Global,
    top: u8,
    names: &[Declared],
    source: &ModuleParts<'_>,
) -> Result<[bool; 8], OutOfMemory>
    requires { 7 ≤ top }
    ensures { IfOk result (λ set. set ≡ driven_cells top (map view_declared names.now) (view_module source.now).sections) }
{
    let signals = outputs(alloc, names)?;
    let unread = unread(alloc, names, source, signals.as_slice())?;
    let free = free_cells(alloc, top, names)?;
    let mut middle = middle_or_others(alloc, top, free.as_slice(), true)?;
    middle.truncate(unread.len());
    let others = middle_or_others(alloc, top, free.as_slice(), false)?;
    let chosen = chosen_cells(middle, others, signals.len())?;
    Ok(set_of(top, names, Wanted::Assigned, chosen.as_slice()))
}

/// Whether some name is a register.
fn any_register(names: &[Declared]) -> bool
    ensures { result ≡ list_any (λ (d : Declared). is_stored (view_declared d)) names.now }
{
    names.iter().any(|declared| declared.is_stored())
}

/// Whether there is a register.
fn has_register(names: &[Declared]) -> bool
    ensures { result ≡ list_any is_stored (map view_declared names.now) }
{
    any_register(names)
}

/// The model of a chip with modes, whose top cell is on this pin.
fn chip_model(
    alloc: Global,
    name: DeviceName,
    top: u8,
    names: &[Declared],
    source: &ModuleParts<'_>,
) -> Result<Model, OutOfMemory>
    requires { 7 ≤ top }
    ensures { IfOk result (λ model. model ≡ chip_model name top (map view_declared names.now) (view_module source.now).sections) }
{
    if has_register(names) {
        let stores = registered_cells(alloc, top, names)?;
        return Ok(Model::registered(name, stores));
    }
    if is_simple(alloc, top, names, source)? {
        let driven = driven_cells(alloc, top, names, source)?;
        return Ok(Model::simple(name, driven));
    }
    if reads_either(alloc, names, source, top, top - 7)? {
        let stores = registered_cells(alloc, top, names)?;
        return Ok(Model::registered(name, stores));
    }
    Ok(Model::plain(name))
}

/// The model of a device that a module asks for, whose names these are: of a chip with modes the mode, and which cells drive
/// or are registers.
pub fn wanted_model(
    alloc: Global,
    name: DeviceName,
    names: &[Declared],
    source: &ModuleParts<'_>,
) -> Result<Model, OutOfMemory>
    ensures { IfOk result (λ model. model ≡ model_for name (map view_declared names.now) (view_module source.now).sections) }
{
    match name.top_cell() {
        Some(top) => chip_model(alloc, name, top, names, source),
        None => Ok(Model::plain(name)),
    }
}
