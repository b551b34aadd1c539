//! Which of the cells that are too wide is reported.

ghost use Rattle.std.specs.Prelude.{◌≡◌, ◌+◌, ◌≤◌, IfOk, Ok, false, true};
ghost use Rattle.fitter.specs.Prelude.{is_before, IsSoundNetlist};
ghost use Rattle.fitter.specs.CellCovered.{CanCoverCell, IsFirstBelow, IsFirstNumber};
ghost use Rattle.fitter.specs.Width.{IsFirstWide, IsTooWide, width_order};

use crate::cell_covering::cover_cell;
use crate::shared::cell_wanted;
use crate::sound_fit::SoundFit;
use bit_expr::CellWanted;
use fit_plans::Workspace;
use pld_device::Device;
use sop_lowering::LowerFault;
use std::alloc::{AllocError, Global};

/// Whether a cell precedes another: by the line of its first data target, by the column, and at one place by number.
#[tactic(auto, using(crate::proofs::WidthOrder::before_by))]
fn is_before(here: &CellWanted, there: &CellWanted) -> bool
    ensures { result ≡ is_before width_order here.now there.now }
{
    if here.place.line != there.place.line {
        return here.place.line < there.place.line;
    }
    if here.place.column != there.place.column {
        return here.place.column < there.place.column;
    }
    here.cell < there.cell
}

/// Whether a cell is too wide.
fn is_wide<D: Device>(
    space: &mut Workspace,
    fit: &SoundFit<D>,
    wanted: CellWanted,
) -> Result<bool, AllocError>
    requires sound { IsSoundNetlist D.table fit.now.over.net.now }
    requires can { CanCoverCell D.table fit.now.over.net.now wanted }
    ensures wide { result ≡ Ok true → IsTooWide D.table fit.now.over.net.now wanted }
    ensures fits { result ≡ Ok false → IsTooWide D.table fit.now.over.net.now wanted → ⊥ }
{
    match cover_cell(space, fit, wanted) {
        Ok(_) => Ok(false),
        Err(LowerFault::TooWide) => Ok(true),
        Err(LowerFault::OutOfMemory) => Err(AllocError),
    }
}

/// The cell of the number, if it is too wide and precedes the first of the cells below it; else that one.
fn earlier<D: Device>(
    space: &mut Workspace,
    fit: &SoundFit<D>,
    first: CellWanted,
    cell: u8,
) -> Result<CellWanted, AllocError>
    requires sound { IsSoundNetlist D.table fit.now.over.net.now }
    requires first { IsFirstBelow D.table fit.now.over.net.now cell first }
    ensures { IfOk result (IsFirstBelow D.table fit.now.over.net.now (cell + 1)) }
{
    let Some(wanted) = cell_wanted(fit.over.net, cell) else {
        return Ok(first);
    };
    if !is_before(&wanted, &first) {
        return Ok(first);
    }
    let wide = is_wide(space, fit, wanted)?;
    if wide { Ok(wanted) } else { Ok(first) }
}

/// The first in the source of the cells that are too wide; `cell` is the first by number. Of the cells after it those are
/// covered that precede it in the source.
pub fn first_wide<D: Device>(
    space: &mut Workspace,
    fit: &SoundFit<D>,
    cell: u8,
) -> Result<u8, AllocError>
    requires sound { IsSoundNetlist D.table fit.now.over.net.now }
    requires wide { IsFirstNumber D.table fit.now.over.net.now cell }
    ensures { IfOk result (IsFirstWide D.table fit.now.over.net.now) }
{
    let Some(wanted) = cell_wanted(fit.over.net, cell) else {
        unreachable!()
    };
    let mut first = wanted;
    for later in cell..fit.device.cells() {
        first = earlier(space, fit, first, later)?;
    }
    Ok(first.cell)
}
