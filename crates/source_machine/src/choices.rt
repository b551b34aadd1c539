//! Which free registers store the complement, and points as a netlist reads them.

ghost use Rattle.std.specs.Prelude.{◌≡◌, ◌<◌, All, length};
ghost use Rattle.source_machine.specs.Prelude.{bits, is_on, levels_of, exchanged_at, arena, plain_netlist, IsCellIn};
ghost use Rattle.source_machine.specs.Choices.{AreChosen, chosen};

use crate::cells::cell_wanted;
use bit_expr::Netlist;
use pld_base::{Point, level_at, with_level};
use pld_device::{Device, Loaded};

/// Whether the cell is a free register that inverts by its bit.
fn is_chosen<D: Device>(net: &Netlist, inverted: u32, cell: u8) -> bool
    requires inside { All (IsCellIn (length (arena net.now.exprs))) net.now.cells }
    requires cell { cell < length D.table.cells }
    ensures { result ≡ chosen D.table (plain_netlist net.now) inverted cell }
{
    match cell_wanted(net, cell) {
        None => false,
        Some(wanted) => wanted.free && level_at(inverted, cell),
    }
}

/// Bit c says that cell c is such a register.
pub(crate) fn chosen_cells<D: Device>(device: &Loaded<D>, net: &Netlist, inverted: u32) -> u32
    requires { All (IsCellIn (length (arena net.now.exprs))) net.now.cells }
    ensures { AreChosen D.table (plain_netlist net.now) inverted result }
{
    let mut chosen = 0;
    for cell in 0..device.cells() {
        let on = is_chosen::<D>(net, inverted, cell);
        chosen = with_level(chosen, cell, on);
    }
    chosen
}

/// The point with the Qs of these cells complemented, so that each is what its name says of it.
pub(crate) fn as_named_point(at: &Point, complemented: u32) -> Point
    ensures { levels_of result ≡ exchanged_at (is_on (bits 32 complemented)) (levels_of at.now) }
{
    Point {
        pins: at.pins,
        q: at.q ^ complemented,
        nodes: at.nodes,
    }
}
