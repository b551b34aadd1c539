//! The rows of all cells over what the columns carry in the forms that were chosen.
//!
//! Covers are made as if each free register stored what it represents, since the forms of the others are not known then.
//! Once all forms are, each row that reads a free register which is inverted asks its pair of columns for the other level.

ghost use Rattle.std.specs.Prelude.{◌≡◌, ◌<◌, IfOk, get_or, length};
ghost use Rattle.fitter.specs.Prelude.{option_map, turned, form_at};
ghost use Rattle.pld_device.specs.declared.carry.Carry.TheVariants as carry;
ghost use Rattle.fitter.specs.Plans.{is_chosen};
ghost use Rattle.fitter.specs.Turning.{AreTurned, IsChoiceMask, IsTurnedCell, carries_choice};

use crate::rising::risen;
use crate::shared::{cell_wanted, pair_count};
use bit_expr::Netlist;
use covers::Cube;
use fit_plans::{CellForm, CellPlan, all_turned, turned};
use pld_base::{ListOf, with_level};
use pld_device::{Carry, Device, Loaded};
use std::alloc::{AllocError, Global};

/// Whether the form of a cell is the inverted one.
fn is_inverted(forms: &[CellForm], cell: u8) -> bool
    ensures { result ≡ (form_at forms.now cell).inverted }
{
    match forms.get(usize::from(cell)) {
        Some(form) => form.inverted,
        None => false,
    }
}

/// Whether a cell is free and inverted, so that it stores the complement.
fn is_chosen(net: &Netlist, forms: &[CellForm], cell: u8) -> bool
    ensures { result ≡ is_chosen net.now forms.now cell }
{
    match cell_wanted(net, cell) {
        Some(wanted) => wanted.free && is_inverted(forms, cell),
        None => false,
    }
}

/// Whether the pair carries such a cell.
fn carries_choice<D: Device>(
    device: &Loaded<D>,
    net: &Netlist,
    forms: &[CellForm],
    pair: u8,
) -> bool
    requires { pair < length D.table.pairs }
    ensures { result ≡ carries_choice net.now forms.now (get_or D.table.pairs pair (carry.Pin 0)) }
{
    match device.carries(u16::from(pair)) {
        Carry::Pin(_) => false,
        Carry::Cell(cell) => is_chosen(net, forms, cell),
    }
}

/// Bit v says that pair v carries such a cell.
pub(crate) fn choice_mask<D: Device>(device: &Loaded<D>, net: &Netlist, forms: &[CellForm]) -> u32
    ensures { IsChoiceMask D.table net.now forms.now result }
{
    let mut mask = 0;
    for pair in 0..pair_count::<D>(device) {
        let on = carries_choice::<D>(device, net, forms, pair);
        mask = with_level(mask, pair, on);
    }
    mask
}

/// A row that there may be, with the levels of these pairs exchanged.
pub(crate) fn turned_row(row: Option<Cube>, mask: u32) -> Option<Cube>
    ensures { result ≡ option_map (turned mask) row }
{
    match row {
        Some(cube) => Some(turned(cube, mask)),
        None => None,
    }
}

/// The rows of a cell with the levels of these pairs exchanged, in order.
fn turned_cell<D: Device>(
    alloc: Global,
    device: &Loaded<D>,
    plan: &CellPlan,
    mask: u32,
) -> Result<CellPlan, AllocError>
    ensures { IfOk result (IsTurnedCell D.table mask plan.now) }
{
    let rows = all_turned(alloc, plan.rows.as_slice(), mask)?;
    Ok(CellPlan {
        enable: turned_row(plan.enable, mask),
        rows: ListOf::from_vec(risen::<D>(device, rows)),
    })
}

/// Those of all cells.
pub(crate) fn turned_plans<D: Device>(
    alloc: Global,
    device: &Loaded<D>,
    plans: &[CellPlan],
    mask: u32,
) -> Result<Vec<CellPlan>, AllocError>
    ensures { IfOk result (λ list. AreTurned D.table mask plans.now list.items) }
{
    let mut list = Vec::new(alloc);
    for plan in plans {
        let cell = turned_cell::<D>(alloc, device, plan, mask)?;
        list.push(cell)?;
    }
    Ok(list)
}
