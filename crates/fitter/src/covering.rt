//! The covers of the assigned cells and of their enables.

ghost use Rattle.std.specs.Prelude.{◌≡◌, ◌⊎◌, ◌<◌, ◌≤◌, IfOk, Ok, false, length, true};
ghost use Rattle.fitter.specs.Prelude.{IsSoundNetlist, FitsRoom};
ghost use Rattle.fitter.specs.CellCovered.{IsCheckedAt, IsCoveredAt};
ghost use Rattle.fitter.specs.Covered.{AreCovered, EachCoveredBelow};
ghost use Rattle.fitter.specs.Planned.{OneFitsAt};

use crate::cell_covering::{CellCovers, check_at, cover_at};
use crate::fault::FitFault;
use crate::sound_fit::SoundFit;
use crate::widest::first_wide;
use covers::Cube;
use fit_plans::Workspace;
use pld_device::{Device, Loaded};
use sop_lowering::LowerFault;
use std::alloc::Global;

/// Whether there is a cover that fits the room.
fn fits(cover: &Option<Vec<Cube>>, room: usize) -> bool
    ensures { result ≡ false → FitsRoom room cover.now → ⊥ }
{
    match cover {
        Some(rows) => rows.len() <= room,
        None => false,
    }
}

/// Whether no cover of the cell fits its room.
fn is_over<D: Device>(device: &Loaded<D>, cell: u8, covers: &Option<CellCovers>) -> bool
    requires { cell < length D.table.cells }
    ensures { result ≡ true → OneFitsAt D.table cell covers.now → ⊥ }
{
    let Some(found) = covers else {
        return false;
    };
    let room = device.cell(cell).room as usize;
    !fits(&found.tried.direct, room) && !fits(&found.tried.inverted, room)
}

/// Whether a cell is refused for its rows: one before, or else this one if that is asked.
fn is_refused<D: Device>(
    device: &Loaded<D>,
    before: bool,
    stops: bool,
    cell: u8,
    covers: &Option<CellCovers>,
) -> bool
    requires { cell < length D.table.cells }
    ensures over { result ≡ true → (before ≡ true) ⊎ (OneFitsAt D.table cell covers.now → ⊥) }
    ensures goes_on { before ≡ false → stops ≡ false → result ≡ false }
{
    if before {
        return true;
    }
    stops && is_over::<D>(device, cell, covers)
}

/// The covers of the cell of a number; after a cell that is refused only that of its enable.
fn next_covers<D: Device>(
    space: &mut Workspace,
    fit: &SoundFit<D>,
    cell: u8,
    refused: bool,
) -> Result<Option<CellCovers>, LowerFault>
    requires sound { IsSoundNetlist D.table fit.now.over.net.now }
    ensures checked { IsCheckedAt D.table fit.now.over.turned fit.now.over.net.now cell result }
    ensures covered { refused ≡ false → IsCoveredAt D.table fit.now.over.turned fit.now.over.net.now cell result }
{
    if refused {
        check_at(space, fit, cell)
    } else {
        cover_at(space, fit, cell)
    }
}

/// The covers of all assigned cells, one entry a cell of the device; or the cell that is too wide and first assigned in the
/// source. With `stops`, once a cell is over its room, no function of a later cell is covered.
pub(crate) fn cover_cells<D: Device>(
    space: &mut Workspace,
    fit: &SoundFit<D>,
    stops: bool,
) -> Result<Vec<Option<CellCovers>>, FitFault>
    requires sound { IsSoundNetlist D.table fit.now.over.net.now }
    ensures covered { AreCovered D.table fit.now.over.turned fit.now.over.net.now result }
    ensures all { stops ≡ false → IfOk result (λ list. EachCoveredBelow D.table fit.now.over.turned fit.now.over.net.now (length D.table.cells) list.items) }
{
    let mut list = Vec::new(space.alloc);
    let mut refused = false;
    for cell in 0..fit.device.cells() {
        match next_covers(space, fit, cell, refused) {
            Ok(covers) => {
                refused = is_refused::<D>(fit.device, refused, stops, cell, &covers);
                list.push(covers)?;
            }
            Err(LowerFault::TooWide) => {
                let first = first_wide(space, fit, cell)?;
                return Err(FitFault::TooWide(first));
            }
            Err(LowerFault::OutOfMemory) => return Err(FitFault::OutOfMemory),
        }
    }
    Ok(list)
}
