//! For which uses a design is refused.

ghost use Rattle.std.specs.Prelude.{◌≡◌, ◌==◌, ◌&&◌};
ghost use Rattle.design_checks.specs.Prelude.{list_any, Cell, must_register, view_declared};
ghost use Rattle.design_checks.specs.{has_extension, refuses_use};
ghost use Rattle.abel_meaning.specs.SignalPins.{has_read_path_on};

use crate::name_facts::has_wrong_kind_on;
use abel_tree::{Declared, Extension, Meaning};
use pld_device::{Device, Loaded, cell_on, pair_of_cell, pair_of_pin};

/// What is asked of each use.
#[derive(Clone, Copy, PartialEq, Eq)]
pub enum UseRule {
    /// A signal is read with an extension that it has: a node with none, a combinational signal with none, `.PIN` or `.OE`,
    /// a register with any but a reset or preset that the device lacks.
    Extensions,
    /// If the signal has the extension, columns carry what is read.
    Columns,
}

/// Whether the signal has what the extension names: a register, a combinational signal on a pin, or a node.
fn has_extension<D: Device>(
    device: &Loaded<D>,
    declared: &Declared,
    extension: Option<Extension>,
) -> bool
    ensures { result ≡ has_extension D.table (view_declared declared.now) extension }
{
    match declared.meaning {
        Meaning::Pin { .. } => if declared.is_stored() {
            match extension {
                Some(Extension::Ar) => device.reset().is_some(),
                Some(Extension::Sp) => device.preset().is_some(),
                _ => true,
            }
        } else {
            matches!(extension, None | Some(Extension::Pin | Extension::Oe))
        },
        Meaning::Node(_) => extension.is_none(),
        _ => true,
    }
}

/// Whether columns would carry what the extension names of the signal, if it were on this pin.
pub fn has_read_path_on<D: Device>(
    device: &Loaded<D>,
    declared: &Declared,
    pin: u8,
    extension: Option<Extension>,
) -> bool
    ensures { result ≡ has_read_path_on D.table (view_declared declared.now) pin extension }
{
    if declared.is_stored() {
        matches!(extension, None | Some(Extension::Fb | Extension::Q))
            && match cell_on::<D>(device, pin) {
                Some(cell) => pair_of_cell::<D>(device, cell).is_some(),
                None => false,
            }
    } else {
        // a cell that must be a register carries no level at which nothing is assigned, as a combinational signal can't be
        // on it
        matches!(extension, None | Some(Extension::Pin))
            && pair_of_pin::<D>(device, pin).is_some()
            && pin != device.power_down()
            && (declared.assigned || !has_wrong_kind_on::<D>(device, pin, false))
    }
}

/// Whether a rule refuses that the signal is read with this extension.
pub(crate) fn refuses_use<D: Device>(
    device: &Loaded<D>,
    rule: UseRule,
    declared: &Declared,
    extension: Option<Extension>,
) -> bool
    ensures { result ≡ refuses_use D.table rule (view_declared declared.now) extension }
{
    let has = has_extension::<D>(device, declared, extension);
    match rule {
        UseRule::Extensions => !has,
        UseRule::Columns => has
            && match declared.meaning {
                Meaning::Pin { pin, .. } => !has_read_path_on::<D>(
                    device, declared, pin, extension,
                ),
                _ => false,
            },
    }
}
