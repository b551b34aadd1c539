//! The reset, or the preset, that all registers share.

ghost use Rattle.std.specs.Prelude.{◌≡◌, ◌≤◌, Contains, IfOk, IfSome, None, true, length};
ghost use Rattle.fitter.specs.Prelude.{AllAskBelow, IsSoundNetlist, bit_list};
ghost use Rattle.fitter.specs.Coverable.{IsSoundId};
ghost use Rattle.fitter.specs.Sharing.{AllListed, FindsApartAt, IsFirstOf, IsFirstWith, IsListedBit, Shares, better_of};

use crate::apart::point_apart;
use crate::evaluating::valued_point;
use crate::shared::{SharedControl, cell_wanted, own_control};
use crate::sound_fit::SoundFit;
use crate::stop::Stop;
use bit_expr::{CellWanted, ExprId, Netlist};
use covers::Cube;
use fit_plans::Workspace;
use pld_base::Point;
use pld_device::Device;
use sop_lowering::{LowerFault, lower};
use std::alloc::{AllocError, Global};

/// Two cells whose equations differ at the point.
#[derive(Clone, Copy, PartialEq, Eq)]
pub struct NotShared {
    pub first: u8,
    pub second: u8,
    pub at: Point,
}

/// The best so far, once a cell more was seen: one with such an equation of its own, of the least name.
fn better(which: SharedControl, best: Option<CellWanted>, wanted: &CellWanted) -> Option<CellWanted>
    ensures { result ≡ better_of which best wanted.now }
{
    let earlier = match best {
        None => true,
        Some(found) => wanted.name < found.name,
    };
    if own_control(which, wanted).is_some() && earlier {
        Some(*wanted)
    } else {
        best
    }
}

/// The cell of the least name that has such an equation of its own.
fn first_with(net: &Netlist, which: SharedControl) -> Option<CellWanted>
    ensures first { IsFirstWith net.now which result }
    ensures among { IfSome result (Contains net.now.cells) }
{
    let mut best = None;
    for wanted in net.cells.as_slice() {
        best = better(which, best, wanted);
    }
    best
}

/// The written list of a bit that has one.
fn listed<D: Device>(alloc: Global, net: &Netlist, bit: ExprId) -> Result<Vec<Cube>, AllocError>
    requires sound { IsSoundNetlist D.table net.now }
    requires id { IsSoundId D.table net.now bit }
    requires some { bit_list net.now bit true ≡ None → ⊥ }
    ensures { IfOk result (λ rows. IsListedBit D.table net.now bit rows.items) }
{
    match lower(alloc, net, bit, true) {
        Ok(rows) => Ok(rows),
        Err(LowerFault::OutOfMemory) => Err(AllocError),
        Err(LowerFault::TooWide) => unreachable!(),
    }
}

/// A point at which a cell's own equation, if it has one, differs from a written list.
fn apart_at<D: Device>(
    space: &mut Workspace,
    fit: &SoundFit<D>,
    which: SharedControl,
    cell: u8,
    rows: &[Cube],
) -> Result<Option<u32>, AllocError>
    requires sound { IsSoundNetlist D.table fit.now.over.net.now }
    requires listed { AllListed fit.now.over.net.now which }
    requires few { length rows.now ≤ 1024 }
    requires below { AllAskBelow (length D.table.pairs) rows.now }
    ensures { IfOk result (FindsApartAt fit.now.over.net.now which cell (length D.table.pairs) rows.now) }
{
    let Some(wanted) = cell_wanted(fit.over.net, cell) else {
        return Ok(None);
    };
    let Some(control) = own_control(which, &wanted) else {
        return Ok(None);
    };
    let own = listed::<D>(space.alloc, fit.over.net, control.bit)?;
    Ok(point_apart(&mut space.pool, rows, &own, fit.over.vars))
}

/// The bit of the first cell's equation, if that of each cell has its value.
fn same_for_all<D: Device>(
    space: &mut Workspace,
    fit: &SoundFit<D>,
    which: SharedControl,
    first: CellWanted,
    bit: ExprId,
) -> Result<ExprId, Stop<NotShared>>
    requires sound { IsSoundNetlist D.table fit.now.over.net.now }
    requires listed { AllListed fit.now.over.net.now which }
    requires first { IsFirstOf D.table fit.now.over.net.now which first bit }
    ensures { Shares D.table fit.now.over.net.now which result }
{
    let rows = listed::<D>(space.alloc, fit.over.net, bit)?;
    for cell in 0..fit.device.cells() {
        if let Some(levels) = apart_at(space, fit, which, cell, &rows)? {
            let point = valued_point::<D>(space.alloc, fit.over.net, levels)?;
            return Err(Stop::Refused(NotShared {
                first: first.cell,
                second: cell,
                at: point,
            }));
        }
    }
    Ok(bit)
}

/// The bit of the reset, or the preset, that all registers share: that of the cell of the least name that has one, else 0.
/// If own equations of cells differ from it, the answer is the first such cell in the device's order, with a point.
pub fn shared_bit<D: Device>(
    space: &mut Workspace,
    fit: &SoundFit<D>,
    which: SharedControl,
) -> Result<ExprId, Stop<NotShared>>
    requires sound { IsSoundNetlist D.table fit.now.over.net.now }
    requires listed { AllListed fit.now.over.net.now which }
    ensures { Shares D.table fit.now.over.net.now which result }
{
    let Some(first) = first_with(fit.over.net, which) else {
        return Ok(ExprId(0));
    };
    match own_control(which, &first) {
        Some(control) => same_for_all(space, fit, which, first, control.bit),
        None => unreachable!(),
    }
}
