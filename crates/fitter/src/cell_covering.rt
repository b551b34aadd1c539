//! The covers of a cell and of its enable.

ghost use Rattle.std.specs.Prelude.{◌≡◌, ◌≤◌, None, Ok, Some, false, true};
ghost use Rattle.fitter.specs.Prelude.{Control, IsSoundNetlist};
ghost use Rattle.fitter.specs.Coverable.{IsSoundId};
ghost use Rattle.fitter.specs.Plans.{enable_bit};
ghost use Rattle.fitter.specs.CellCovered.{CanCoverCell, HasRows, IsChecked, IsCheckedAt, IsCovered, IsCoveredAt, IsListed};
ghost use Rattle.fitter.specs.Width.{IsFunctionTooWide};

use crate::shared::cell_wanted;
use crate::sound_fit::SoundFit;
use bit_expr::{CellWanted, Control, ExprId, Netlist};
use covers::Cube;
use fit_plans::{Tried, Workspace, has_lists};
use pld_device::{Device, Loaded};
use sop_lowering::{LowerFault, lower};
use std::alloc::{AllocError, Global};

/// What is found of an assigned cell: the covers in the forms that it may have, and that of its enable.
#[derive(Drop)]
pub struct CellCovers {
    pub wanted: CellWanted,
    pub tried: Tried,
    pub enable: Vec<Cube>,
}

/// The bit of the cell's enable; always 1 if it has none of its own.
fn enable_bit(wanted: &CellWanted) -> ExprId
    ensures { result ≡ enable_bit wanted.now }
{
    match wanted.enable {
        Some(control) => control.bit,
        None => ExprId(1),
    }
}

/// The cover of a control; TooWide if it has no written list.
pub fn control_rows<D: Device>(
    space: &mut Workspace,
    fit: &SoundFit<D>,
    bit: ExprId,
) -> Result<Vec<Cube>, LowerFault>
    requires sound { IsSoundNetlist D.table fit.now.over.net.now }
    requires id { IsSoundId D.table fit.now.over.net.now bit }
    ensures { HasRows D.table fit.now.over.turned fit.now.over.net.now bit result }
{
    let found = fit.over.control_cover(space, bit)?;
    match found {
        Some(rows) => Ok(rows),
        None => Err(LowerFault::TooWide),
    }
}

/// Whether the equation of a control that there may be has a written list: TooWide if it has none.
fn listed<D: Device>(
    alloc: Global,
    net: &Netlist,
    control: Option<Control>,
) -> Result<(), LowerFault>
    requires sound { IsSoundNetlist D.table net.now }
    requires id { (k : Control) → control ≡ Some k → IsSoundId D.table net.now k.bit }
    ensures { IsListed net.now control result }
{
    let Some(found) = control else {
        return Ok(());
    };
    match lower(alloc, net, found.bit, true) {
        Ok(_) => Ok(()),
        Err(fault) => Err(fault),
    }
}

/// Whether a cell has no cover in any form.
fn has_none(tried: &Tried) -> bool
    ensures none { result ≡ true → (tried.now.direct ≡ None) × (tried.now.inverted ≡ None) }
    ensures some { result ≡ false → tried.now.direct ≡ None → tried.now.inverted ≡ None → ⊥ }
{
    tried.direct.is_none() && tried.inverted.is_none()
}

/// The covers of a cell; TooWide if its function has none in any form, or a control of it none.
pub(crate) fn cover_cell<D: Device>(
    space: &mut Workspace,
    fit: &SoundFit<D>,
    wanted: CellWanted,
) -> Result<CellCovers, LowerFault>
    requires sound { IsSoundNetlist D.table fit.now.over.net.now }
    requires can { CanCoverCell D.table fit.now.over.net.now wanted }
    ensures { IsCovered D.table fit.now.over.turned fit.now.over.net.now wanted result }
{
    let room = fit.device.cell(wanted.cell).room as usize;
    let tried = fit.over.try_cell(space, &wanted, room)?;
    if has_none(&tried) {
        return Err(LowerFault::TooWide);
    }
    let enable = control_rows(space, fit, enable_bit(&wanted))?;
    listed::<D>(space.alloc, fit.over.net, wanted.reset)?;
    listed::<D>(space.alloc, fit.over.net, wanted.preset)?;
    Ok(CellCovers {
        wanted,
        tried,
        enable,
    })
}

/// Whether the cell's function has written lists in some form that the cell may have.
fn has_form<D: Device>(
    alloc: Global,
    device: &Loaded<D>,
    net: &Netlist,
    wanted: &CellWanted,
) -> Result<bool, AllocError>
    requires sound { IsSoundNetlist D.table net.now }
    requires can { CanCoverCell D.table net.now wanted.now }
    ensures fits { result ≡ Ok true → IsFunctionTooWide D.table net.now wanted.now → ⊥ }
    ensures wide { result ≡ Ok false → IsFunctionTooWide D.table net.now wanted.now }
{
    let direct = has_lists(alloc, net, wanted, device.flip(), false)?;
    if direct {
        return Ok(true);
    }
    has_lists(alloc, net, wanted, device.flip(), true)
}

/// The cover of a cell's enable, without those of its function; TooWide if this has no written lists in any form, or a
/// control of the cell none.
fn check_cell<D: Device>(
    space: &mut Workspace,
    fit: &SoundFit<D>,
    wanted: CellWanted,
) -> Result<CellCovers, LowerFault>
    requires sound { IsSoundNetlist D.table fit.now.over.net.now }
    requires can { CanCoverCell D.table fit.now.over.net.now wanted }
    ensures { IsChecked D.table fit.now.over.turned fit.now.over.net.now wanted result }
{
    let fits = has_form::<D>(space.alloc, fit.device, fit.over.net, &wanted)?;
    if !fits {
        return Err(LowerFault::TooWide);
    }
    let enable = control_rows(space, fit, enable_bit(&wanted))?;
    listed::<D>(space.alloc, fit.over.net, wanted.reset)?;
    listed::<D>(space.alloc, fit.over.net, wanted.preset)?;
    let tried = Tried {
        direct: None,
        inverted: None,
    };
    Ok(CellCovers {
        wanted,
        tried,
        enable,
    })
}

/// The covers of the cell of a number, if it is assigned.
pub fn cover_at<D: Device>(
    space: &mut Workspace,
    fit: &SoundFit<D>,
    cell: u8,
) -> Result<Option<CellCovers>, LowerFault>
    requires sound { IsSoundNetlist D.table fit.now.over.net.now }
    ensures { IsCoveredAt D.table fit.now.over.turned fit.now.over.net.now cell result }
{
    let Some(wanted) = cell_wanted(fit.over.net, cell) else {
        return Ok(None);
    };
    let covers = cover_cell(space, fit, wanted)?;
    Ok(Some(covers))
}

/// Of the cell of a number, if it is assigned, that it is not too wide, and the cover of its enable alone: for the cells
/// that follow one which is refused.
pub fn check_at<D: Device>(
    space: &mut Workspace,
    fit: &SoundFit<D>,
    cell: u8,
) -> Result<Option<CellCovers>, LowerFault>
    requires sound { IsSoundNetlist D.table fit.now.over.net.now }
    ensures { IsCheckedAt D.table fit.now.over.turned fit.now.over.net.now cell result }
{
    let Some(wanted) = cell_wanted(fit.over.net, cell) else {
        return Ok(None);
    };
    let covers = check_cell(space, fit, wanted)?;
    Ok(Some(covers))
}
