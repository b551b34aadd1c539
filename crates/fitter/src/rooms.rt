//! The cells that are over their room, all of them.

ghost use Rattle.std.specs.Prelude.{◌≡◌, ◌<◌, IfOk, IfSome, Some, length, min};
ghost use Rattle.fitter.specs.Prelude.{IsSoundNetlist};
ghost use Rattle.std.specs.List.{All};
ghost use Rattle.fitter.specs.Rooms.{AddsTold, AreOverfull, HasSomeCover, IsOver, IsToldBy, fewest_rows};

use crate::cell_covering::CellCovers;
use crate::covering::cover_cells;
use crate::fault::FitFault;
use crate::masks::turn_mask;
use crate::planning::taken;
use crate::shared::pair_count;
use crate::sound_fit::SoundFit;
use bit_expr::Netlist;
use fit_plans::{Covering, Tried, Workspace, choose};
use pld_base::{ListOf, OutOfMemory};
use pld_device::{Device, Loaded};
use std::alloc::Global;

/// A cell with too few rows: its pin, its room, and how many rows the smaller one of its covers has.
#[derive(Clone, Copy)]
pub struct Overfull {
    pub pin: u8,
    pub room: u8,
    pub rows: usize,
}

/// The lesser of two numbers.
fn lesser(one: usize, other: usize) -> usize
    ensures { result ≡ min one other }
{
    if one < other { one } else { other }
}

/// How many rows the smaller one of the covers has, if there is one.
fn fewest(tried: &Tried) -> Option<usize>
    ensures { result ≡ fewest_rows tried.now.direct tried.now.inverted }
{
    match (&tried.direct, &tried.inverted) {
        (None, None) => None,
        (Some(rows), None) => Some(rows.len()),
        (None, Some(rows)) => Some(rows.len()),
        (Some(direct), Some(inverted)) => Some(lesser(direct.len(), inverted.len())),
    }
}

/// Whether the covers of a cell are over its room, and by how much.
fn overfull_at<D: Device>(device: &Loaded<D>, cell: u8, covers: CellCovers) -> Option<Overfull>
    requires cell { cell < length D.table.cells }
    requires some { HasSomeCover (Some covers) }
    ensures over { IfSome result IsOver }
    ensures told { IsToldBy D.table cell (Some covers) result }
{
    let found = device.cell(cell);
    match choose(covers.tried, usize::from(found.room)) {
        Ok(_) => None,
        Err(tried) => match fewest(&tried) {
            None => None,
            Some(rows) => Some(Overfull {
                pin: found.pin,
                room: found.room,
                rows,
            }),
        },
    }
}

/// Adds a cell that is over its room.
fn add_overfull<D: Device>(
    device: &Loaded<D>,
    list: &mut Vec<Overfull>,
    cell: u8,
    covers: Option<CellCovers>,
) -> Result<(), OutOfMemory>
    requires cell { cell < length D.table.cells }
    requires some { HasSomeCover covers }
    requires over { All IsOver list.old.items }
    ensures over { IfOk result (λ _. All IsOver list.new.items) }
    ensures told { IfOk result (λ _. AddsTold D.table cell covers list.old.items list.new.items) }
{
    let Some(covers) = covers else {
        return Ok(());
    };
    if let Some(over) = overfull_at::<D>(device, cell, covers) {
        list.push(over)?;
    }
    Ok(())
}

/// The cells of a netlist that are over their room, in the order of the cells. It makes one pool for all covers.
pub fn cells_over_room<'a, D: Device>(
    alloc: Global,
    device: &'a Loaded<D>,
    net: &'a Netlist,
) -> Result<ListOf<Overfull>, FitFault>
    requires { IsSoundNetlist D.table net.now }
    ensures over { IfOk result (λ list. All IsOver list) }
    ensures told { AreOverfull D.table net.now result }
{
    let mut space = Workspace::new(alloc)?;
    let turned = turn_mask::<D>(device, net);
    let fit = SoundFit::<D> {
        over: Covering {
            net,
            flip: device.flip(),
            turned,
            vars: pair_count::<D>(device),
        },
        device,
    };
    let mut left = cover_cells(&mut space, &fit, false)?;
    let mut list = Vec::new(alloc);
    for cell in 0..device.cells() {
        let covers = taken(&mut left, cell as usize);
        add_overfull::<D>(device, &mut list, cell, covers)?;
    }
    Ok(ListOf::from_vec(list))
}
