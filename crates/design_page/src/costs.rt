//! What an output takes in each polarity.

ghost use Rattle.std.specs.Prelude.{◌≡◌, ◌<◌, ◌≤◌, ◌++◌, IfOk, IfSome, length, option_to_list};
ghost use Rattle.std.specs.List.{All};
ghost use Rattle.abel_meaning.specs.Netlists.{plain_netlist};
ghost use Rattle.abel_meaning.specs.SoundIds.{IsSoundNetlist};
ghost use Rattle.fitter.specs.CellCovered.{CanCoverCell};
ghost use Rattle.fitter.specs.Plans.{IsTurnMask, cell_wanted};
ghost use Rattle.pld_device.specs.Table.{cell_at};
ghost use Rattle.design_page.specs.Costly.{IsCostly, TakesRows, TellsBelow, TellsCell, costly_of, is_asked, is_costly};

use bit_expr::{CellWanted, Netlist};
use fit_plans::{Covering, Workspace};
use fitter::{SoundFit, cell_wanted, pair_count, turn_mask};
use pld_base::{ListOf, OutOfMemory, level_at};
use pld_device::{Cell, Device, Loaded};
use std::alloc::Global;

/// An output that takes at least three times the rows of its other polarity, and how many each takes.
#[derive(Clone, Copy)]
pub struct CostlyPolarity {
    pub pin: u8,
    pub rows: usize,
    pub other: usize,
}

/// How many rows a cell takes in a form; none if it may not have the form, or is too wide in it.
fn rows_in<D: Device>(
    space: &mut Workspace,
    fit: &SoundFit<D>,
    wanted: &CellWanted,
    inverted: bool,
) -> Result<Option<usize>, OutOfMemory>
    requires sound { IsSoundNetlist D.table fit.now.over.net.now }
    requires turned { IsTurnMask D.table (plain_netlist fit.now.over.net.now) fit.now.over.turned }
    requires can { CanCoverCell D.table fit.now.over.net.now wanted.now }
    ensures { IfOk result (λ rows. TakesRows D.table fit.now.over.net.now wanted.now inverted rows) }
{
    match fit.over.try_form(space, wanted, inverted)? {
        Some(rows) => Ok(Some(rows.len())),
        None => Ok(None),
    }
}

/// Whether the rows are at least three times the others, of which there are some.
fn is_costly(rows: usize, other: usize) -> bool
    ensures { result ≡ is_costly rows other }
{
    other > 0 && rows / 3 >= other
}

/// The output of a cell whose direct form fits and is costly.
fn costly(cell: Cell, direct: Option<usize>, inverted: Option<usize>) -> Option<CostlyPolarity>
    ensures costly { IfSome result IsCostly }
    ensures told { result ≡ costly_of cell direct inverted }
{
    match (direct, inverted) {
        (Some(rows), Some(other)) => {
            if rows <= usize::from(cell.room) && is_costly(rows, other) {
                return Some(CostlyPolarity {
                    pin: cell.pin,
                    rows,
                    other,
                });
            }
            None
        }
        _ => None,
    }
}

/// The output of an assigned cell whose pin is among these, if it is costly.
fn costly_at<D: Device>(
    space: &mut Workspace,
    fit: &SoundFit<D>,
    cell: u8,
    pins: u32,
) -> Result<Option<CostlyPolarity>, OutOfMemory>
    requires sound { IsSoundNetlist D.table fit.now.over.net.now }
    requires turned { IsTurnMask D.table (plain_netlist fit.now.over.net.now) fit.now.over.turned }
    requires low { cell < length D.table.cells }
    ensures costly { IfOk result (λ found. IfSome found IsCostly) }
    ensures told { IfOk result (TellsCell D.table fit.now.over.net.now cell
        (is_asked pins (cell_at D.table cell)) (cell_wanted fit.now.over.net.now cell)) }
{
    let found = fit.device.cell(cell);
    if !level_at(pins, found.pin) {
        return Ok(None);
    }
    let Some(wanted) = cell_wanted(fit.over.net, cell) else {
        return Ok(None);
    };
    let direct = rows_in(space, fit, &wanted, false)?;
    let inverted = rows_in(space, fit, &wanted, true)?;
    Ok(costly(found, direct, inverted))
}

/// Adds an output that is costly, if one was found.
fn add_found(
    list: &mut Vec<CostlyPolarity>,
    found: Option<CostlyPolarity>,
) -> Result<(), OutOfMemory>
    requires list { All IsCostly list.old.items }
    requires found { IfSome found IsCostly }
    ensures costly { IfOk result (λ _. All IsCostly list.new.items) }
    ensures added { IfOk result (λ _. list.new.items ≡ list.old.items ++ option_to_list found) }
{
    if let Some(costly) = found {
        list.push(costly)?;
    }
    Ok(())
}

/// The outputs at these pins, bit p for pin p, that fit as they are and take at least three times the rows of their other
/// polarity, in the order of the cells. None if the device leaves no choice. It makes one pool for all covers.
pub fn costly_polarities<'a, D: Device>(
    alloc: Global,
    device: &'a Loaded<D>,
    net: &'a Netlist,
    pins: u32,
) -> Result<ListOf<CostlyPolarity>, OutOfMemory>
    requires { IsSoundNetlist D.table net.now }
    ensures costly { IfOk result (λ list. All IsCostly list) }
    ensures told { IfOk result (λ list. TellsBelow D.table net.now pins (length D.table.cells) list) }
{
    let mut space = Workspace::new(alloc)?;
    let fit = SoundFit::<D> {
        over: Covering {
            net,
            flip: device.flip(),
            turned: turn_mask::<D>(device, net),
            vars: pair_count::<D>(device),
        },
        device,
    };
    let mut list = Vec::new(alloc);
    for cell in 0..device.cells() {
        let found = costly_at(&mut space, &fit, cell, pins)?;
        add_found(&mut list, found)?;
    }
    Ok(ListOf::from_vec(list))
}
