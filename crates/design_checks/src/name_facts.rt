//! What is declared of a name.

ghost use Rattle.std.specs.Prelude.{◌≡◌};
ghost use Rattle.design_checks.specs.Prelude.{entries_of, view_declared, first_refusal};
ghost use Rattle.design_checks.specs.{registered_nodes, use_order};
ghost use Rattle.abel_meaning.specs.SignalPins.{has_wrong_kind, has_wrong_kind_on, is_registered_node, is_wrong_cell};

use crate::refused::{RefusedUse, told_if};
use abel_tree::{Declared, Meaning, earlier};
use pld_device::{Cell, Device, Kinds, Loaded};
use set_expr::Scope;

/// Whether it is the cell of this pin, and can't be what the signal is.
fn is_wrong_cell(cell: Cell, pin: u8, stored: bool) -> bool
    ensures { result ≡ is_wrong_cell pin stored cell }
{
    cell.pin == pin
        && match cell.kinds {
            Kinds::Combinational => stored,
            Kinds::Registered => !stored,
            Kinds::Either => false,
        }
}

/// Whether the cell of this pin can't be what the signal is.
pub fn has_wrong_kind_on<D: Device>(device: &Loaded<D>, pin: u8, stored: bool) -> bool
    ensures { result ≡ has_wrong_kind_on D.table pin stored }
{
    for index in 0..device.cells() {
        if is_wrong_cell(device.cell(index), pin, stored) {
            return true;
        }
    }
    false
}

/// Whether the signal is on a cell that can't be what it is.
pub(crate) fn has_wrong_kind<D: Device>(device: &Loaded<D>, declared: &Declared) -> bool
    ensures { result ≡ has_wrong_kind D.table (view_declared declared.now) }
{
    match declared.meaning {
        Meaning::Pin { pin, .. } => has_wrong_kind_on::<D>(device, pin, declared.is_stored()),
        _ => false,
    }
}

/// Whether the name is a registered node.
pub fn is_registered_node(declared: &Declared) -> bool
    ensures { result ≡ is_registered_node (view_declared declared.now) }
{
    match declared.meaning {
        Meaning::Node(_) => declared.is_registered(),
        _ => false,
    }
}

/// The first declaration of a node that is registered: by its attribute, or by an assignment on the clock.
pub fn registered_node(scope: &Scope<'_>) -> Option<RefusedUse>
    ensures { result ≡ first_refusal use_order (registered_nodes 0 (entries_of scope.now)) }
{
    let mut first = None;
    for (number, declared) in scope.list().iter().enumerate() {
        let refused = is_registered_node(declared);
        first = earlier(first, told_if(refused, declared.place, number));
    }
    first
}
