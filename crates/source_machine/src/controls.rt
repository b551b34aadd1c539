//! Resets and presets: a cell's own, else the one that all registers share.

ghost use Rattle.std.specs.Prelude.{◌≡◌, All, IfSome, false, length, unwrap_or};
ghost use Rattle.source_machine.specs.Prelude.{option_map, levels_of, arena, Const, formula_value, first_with, own_or_shared, plain_control, plain_netlist, plain_wanted, IsCellIn, IsControlIn};
ghost use Rattle.source_machine.specs.Finding.{earlier_of, own_control, own_formula};

use crate::cells::cell_wanted;
use crate::values::control_value;
use bit_expr::{CellWanted, Control, Netlist};
use pld_base::Point;

/// A control of registers.
#[derive(Clone, Copy, PartialEq, Eq)]
pub(crate) enum RegisterControl {
    Reset,
    Preset,
}

/// The cell's own equation, if it is assigned and has one.
fn own_control(which: RegisterControl, wanted: Option<CellWanted>) -> Option<Control>
    ensures { result ≡ own_control which wanted }
{
    match wanted {
        None => None,
        Some(wanted) => match which {
            RegisterControl::Reset => wanted.reset,
            RegisterControl::Preset => wanted.preset,
        },
    }
}

/// The cell of the lesser name: this one, if it has such an equation, or the first of those after it.
fn earlier(
    which: RegisterControl,
    wanted: CellWanted,
    first: Option<CellWanted>,
) -> Option<CellWanted>
    ensures { result ≡ earlier_of which wanted first }
{
    if own_control(which, Some(wanted)).is_none() {
        return first;
    }
    match first {
        None => Some(wanted),
        Some(found) => {
            if found.name < wanted.name {
                first
            } else {
                Some(wanted)
            }
        }
    }
}

/// The cell of least name that has such an equation of its own.
fn first_with(net: &Netlist, which: RegisterControl) -> Option<CellWanted>
    requires { All (IsCellIn (length (arena net.now.exprs))) net.now.cells }
    ensures first { option_map (plain_wanted (arena net.now.exprs)) result
        ≡ first_with (own_formula which) (plain_netlist net.now).cells }
    ensures inside { IfSome result (IsCellIn (length (arena net.now.exprs))) }
{
    let cells = net.cells.as_slice();
    let mut first = None;
    let mut rest = cells.len();
    while rest > 0 {
        rest -= 1;
        first = earlier(which, cells[rest], first);
    }
    first
}

/// The equation that counts for a cell.
fn control_for(net: &Netlist, which: RegisterControl, cell: u8) -> Option<Control>
    requires { All (IsCellIn (length (arena net.now.exprs))) net.now.cells }
    ensures control { unwrap_or (plain_control (arena net.now.exprs) result) (Const false)
        ≡ own_or_shared (own_formula which) (plain_netlist net.now) cell }
    ensures inside { IsControlIn (length (arena net.now.exprs)) result }
{
    match own_control(which, cell_wanted(net, cell)) {
        Some(control) => Some(control),
        None => own_control(which, first_with(net, which)),
    }
}

/// Whether the reset, or the preset, of a cell holds.
pub(crate) fn holds(net: &Netlist, which: RegisterControl, cell: u8, at: &Point) -> bool
    requires { All (IsCellIn (length (arena net.now.exprs))) net.now.cells }
    ensures { result ≡ formula_value (levels_of at.now) (own_or_shared (own_formula which) (plain_netlist net.now) cell) }
{
    control_value(&net.exprs, control_for(net, which, cell), false, at)
}
