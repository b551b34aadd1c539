//! What signals ask of nodes and cells.

ghost use Rattle.std.specs.Prelude.{◌≡◌, ◌<◌, ◌∷◌, suc, List, length, OnOk, None};
ghost use Rattle.gathering.specs.Prelude.{arena, Formula, Entry, view_declared};
ghost use Rattle.gathering.specs.{AllLieIn, Stands, Throughout, AsksBefore, asked_cell, control_by_row, control_if};

use crate::link::Link;
use crate::links::link_of;
use crate::names::{cell_of, is_free, is_node};
use crate::signal::{Totals, sum_up};
use abel_tree::{Declared, Meaning};
use bit_expr::{CellWanted, Control, Exprs, Function};
use pld_base::OutOfMemory;
use pld_device::{Device, Enable, Loaded};
use set_expr::Contribution;
use std::alloc::Global;

/// What the names that were passed ask of nodes and cells, and these signals by their numbers, each with what it
/// reads.
#[derive(Drop)]
pub(crate) struct Asked {
    pub(crate) nodes: Vec<Function>,
    pub(crate) cells: Vec<CellWanted>,
    pub(crate) signals: Vec<usize>,
    pub(crate) links: Vec<Link>,
}

/// A declared name with its number, and the device that it is for.
#[derive(Drop)]
pub(crate) struct Named<'a, D: Device> {
    pub(crate) device: &'a Loaded<D>,
    pub(crate) number: usize,
    pub(crate) declared: &'a Declared,
}

/// The enable of a cell that a row enables.
fn by_row(enable: Enable, control: Option<Control>) -> Option<Control>
    ensures { result ≡ control_by_row enable control }
{
    match enable {
        Enable::Row(_) => control,
        Enable::PinLow(_) | Enable::Driven | Enable::Released => None,
    }
}

/// The control of a signal that is stored.
fn control_if(stored: bool, control: Option<Control>) -> Option<Control>
    ensures { result ≡ control_if stored control }
{
    if stored { control } else { None }
}

/// What a signal asks of its cell.
fn asked_cell<D: Device>(
    device: &Loaded<D>,
    cell: u8,
    name: usize,
    declared: &Declared,
    totals: &Totals,
) -> CellWanted
    requires { cell < length D.table.cells }
    ensures { result ≡ asked_cell D.table cell name (view_declared declared.now) totals.now }
{
    let stored = declared.is_stored();
    CellWanted {
        cell,
        name,
        place: totals.place.unwrap_or(declared.place),
        registered: stored,
        buffer: declared.follows_q(),
        free: is_free(declared),
        negated: matches!(declared.meaning, Meaning::Pin { negated: true, .. }),
        raw: stored && totals.raw,
        function: totals.function,
        enable: by_row(device.cell(cell).enable, totals.controls.enable),
        reset: control_if(stored, totals.controls.reset),
        preset: control_if(stored, totals.controls.preset),
    }
}

/// Adds what one name more asks, by all that is contributed. A name that is no node and has no cell takes no time.
pub(crate) fn ask<D: Device>(
    alloc: Global,
    exprs: &mut Exprs,
    list: &[Contribution],
    named: &Named<'_, D>,
    asked: &mut Asked,
) -> Result<(), OutOfMemory>
    requires { AllLieIn (length (arena exprs.old)) list.now }
    ensures asks { OnOk result (Throughout (arena exprs.old) (arena exprs.new) list.now (λ first last.
        (xs left : List Entry)
        → AsksBefore D.table first last list.now xs named.now.number (view_declared named.now.declared.now ∷ left) asked.old
        → AsksBefore D.table first last list.now xs (suc named.now.number) left asked.new)) }
    ensures stands { OnOk result (Stands (arena exprs.old) (arena exprs.new)) }
{
    let name = named.number;
    let declared = named.declared;
    let cell = cell_of::<D>(named.device, declared);
    if cell.is_none() && !is_node(&declared.meaning) {
        return Ok(());
    }
    let totals = sum_up(alloc, exprs, list, name)?;
    asked
        .links
        .push(link_of::<D>(named.device, exprs, declared, &totals))?;
    asked.signals.push(name)?;
    match cell {
        Some(cell) => asked.cells.push(asked_cell::<D>(
            named.device,
            cell,
            name,
            declared,
            &totals,
        ))?,
        None => asked.nodes.push(totals.function)?,
    }
    Ok(())
}
