//! The cell of a signal, and which equations are compared with what the device does.

ghost use Rattle.std.specs.Prelude.{◌≡◌, ◌<◌, IfSome, length};
ghost use Rattle.design_checks.specs.Prelude.{view_declared, cell_of};
ghost use Rattle.design_checks.specs.{is_compared_of, is_cell_by_pin};

use abel_tree::{Declared, Extension, Meaning};
use pld_device::{Device, Enable, Loaded, cell_on};

/// The cell that the signal is assigned on.
pub(crate) fn cell_of<D: Device>(device: &Loaded<D>, declared: &Declared) -> Option<u8>
    ensures cell { result ≡ cell_of D.table (view_declared declared.now) }
    ensures within { IfSome result (λ c. c < length D.table.cells) }
{
    match declared.meaning {
        Meaning::Pin { pin, .. } => if declared.assigned {
            cell_on::<D>(device, pin)
        } else {
            None
        },
        _ => None,
    }
}

/// Whether the signal is assigned on a cell that no row enables.
pub(crate) fn is_enabled_by_pin<D: Device>(device: &Loaded<D>, declared: &Declared) -> bool
    ensures { result ≡ is_cell_by_pin D.table (cell_of D.table (view_declared declared.now)) }
{
    match cell_of::<D>(device, declared) {
        Some(cell) => !matches!(device.cell(cell).enable, Enable::Row(_)),
        None => false,
    }
}

/// Whether an equation for this signal is compared: one for a clock, or for the enable of a cell that no row enables.
pub(crate) fn is_compared<D: Device>(
    device: &Loaded<D>,
    declared: &Declared,
    extension: Option<Extension>,
) -> bool
    ensures { result ≡ is_compared_of D.table extension (view_declared declared.now) }
{
    match extension {
        Some(Extension::Clk) => true,
        Some(Extension::Oe) => is_enabled_by_pin::<D>(device, declared),
        _ => false,
    }
}
