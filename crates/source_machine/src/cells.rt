//! The cells of a device as a netlist asks of them.

ghost use Rattle.std.specs.Prelude.{◌≡◌, ◌<◌, All, IfSome, false, length};
ghost use Rattle.source_machine.specs.Prelude.{option_map, levels_of, cell_at, arena, node_at, plain_function, plain_netlist, plain_wanted, wanted_at, drives, netlist_stores, IsCellIn, IsFunctionIn};
ghost use Rattle.device_logic.specs.Array.{EnableInRange};
ghost use Rattle.pld_device.specs.Registers.{stores_by};
ghost use Rattle.source_machine.specs.AnyAs0.{level_with_any_0, next_with_any_0};

use crate::values::{as_named, control_value, value};
use bit_expr::{CellWanted, Function, Netlist};
use pld_base::{Point, level_at};
use pld_device::{Cell, Device, Enable, Kinds, Loaded};

/// The cell of a number.
pub(crate) fn cell_of<D: Device>(device: &Loaded<D>, index: u8) -> Cell
    requires { index < length D.table.cells }
    ensures found { result ≡ cell_at D.table index }
    ensures pin { result.pin < 32 }
    ensures enable { EnableInRange D.table result.enable }
{
    device.cell(index)
}

/// What is asked of a cell; None if it is assigned nothing.
pub(crate) fn cell_wanted(net: &Netlist, cell: u8) -> Option<CellWanted>
    requires { All (IsCellIn (length (arena net.now.exprs))) net.now.cells }
    ensures found { option_map (plain_wanted (arena net.now.exprs)) result
        ≡ wanted_at (plain_netlist net.now) cell }
    ensures inside { IfSome result (IsCellIn (length (arena net.now.exprs))) }
{
    for wanted in net.cells.as_slice() {
        if wanted.cell == cell {
            return Some(*wanted);
        }
    }
    None
}

/// The function of a node.
pub(crate) fn node_function(net: &Netlist, node: u8) -> Function
    requires inside { All (IsFunctionIn (length (arena net.now.exprs))) net.now.nodes }
    requires node { node < length net.now.nodes }
    ensures function { plain_function (arena net.now.exprs) result ≡ node_at (plain_netlist net.now) node }
    ensures inside { IsFunctionIn (length (arena net.now.exprs)) result }
{
    net.nodes.as_slice()[usize::from(node)]
}

/// Whether the cell is a register.
pub(crate) fn stores<D: Device>(device: &Loaded<D>, net: &Netlist, cell: u8) -> bool
    requires inside { All (IsCellIn (length (arena net.now.exprs))) net.now.cells }
    requires cell { cell < length D.table.cells }
    ensures { result ≡ netlist_stores D.table (plain_netlist net.now) cell }
{
    match cell_wanted(net, cell) {
        None => cell_of::<D>(device, cell).kinds == Kinds::Registered,
        Some(wanted) => wanted.registered,
    }
}

/// Whether the cell drives its pin.
pub(crate) fn enable<D: Device>(device: &Loaded<D>, net: &Netlist, cell: u8, at: &Point) -> bool
    requires inside { All (IsCellIn (length (arena net.now.exprs))) net.now.cells }
    requires cell { cell < length D.table.cells }
    ensures { result ≡ drives (levels_of at.now) (wanted_at (plain_netlist net.now) cell) (cell_at D.table cell).enable }
{
    match cell_of::<D>(device, cell).enable {
        Enable::PinLow(pin) => !level_at(at.pins, pin),
        Enable::Driven => true,
        Enable::Released => false,
        Enable::Row(_) => match cell_wanted(net, cell) {
            None => false,
            Some(wanted) => control_value(&net.exprs, wanted.enable, true, at),
        },
    }
}

/// Whether a cell that is assigned nothing is a register: if it can't be anything else.
fn registers_alone(kinds: Kinds) -> bool
    ensures { result ≡ stores_by kinds false }
{
    kinds == Kinds::Registered
}

/// The level with which the cell drives its pin while it is enabled.
pub(crate) fn level<D: Device>(device: &Loaded<D>, net: &Netlist, cell: u8, at: &Point) -> bool
    requires inside { All (IsCellIn (length (arena net.now.exprs))) net.now.cells }
    requires cell { cell < length D.table.cells }
    requires low { cell < 32 }
    ensures { result ≡ level_with_any_0 (levels_of at.now) (cell_at D.table cell).kinds cell (wanted_at (plain_netlist net.now) cell) }
{
    match cell_wanted(net, cell) {
        None => !(registers_alone(cell_of::<D>(device, cell).kinds) && level_at(at.q, cell)),
        Some(wanted) => {
            if wanted.registered {
                level_at(at.q, cell) == wanted.buffer
            } else {
                as_named(&wanted, value(&net.exprs, wanted.function, at))
            }
        }
    }
}

/// The next Q for which the cell's data ask.
pub(crate) fn next(net: &Netlist, cell: u8, at: &Point) -> bool
    requires { All (IsCellIn (length (arena net.now.exprs))) net.now.cells }
    ensures { result ≡ next_with_any_0 (levels_of at.now) (wanted_at (plain_netlist net.now) cell) }
{
    match cell_wanted(net, cell) {
        None => false,
        Some(wanted) => as_named(&wanted, value(&net.exprs, wanted.function, at)),
    }
}
