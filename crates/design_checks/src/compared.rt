//! Whether an equation for a clock or an enable says what the device does anyway.

ghost use Rattle.std.specs.Prelude.{◌≡◌, ◌<◌, length};
ghost use Rattle.design_checks.specs.Prelude.{arena, formula_at, view_declared};
ghost use Rattle.design_checks.specs.{is_level, is_level_if, says_always};

use crate::by_pin::{cell_of, is_compared};
use abel_tree::{Declared, Extension};
use bit_expr::{ExprId, Exprs, Leaf, Node};
use pld_device::{Device, Enable, Loaded};
use set_expr::Contribution;

/// Whether the bit is the pin's level.
fn is_level(exprs: &Exprs, bit: ExprId, pin: u8) -> bool
    requires { bit.0 < length (arena exprs.now) }
    ensures { result ≡ is_level pin (formula_at (arena exprs.now) bit) }
{
    match exprs.get(bit) {
        Node::Leaf(Leaf::Pin(other)) => other == pin,
        _ => false,
    }
}

/// Whether the bit is the pin's level, or its complement.
fn is_level_if(exprs: &Exprs, bit: ExprId, complement: bool, pin: u8) -> bool
    requires { bit.0 < length (arena exprs.now) }
    ensures { result ≡ is_level_if complement pin (formula_at (arena exprs.now) bit) }
{
    if !complement {
        return is_level(exprs, bit, pin);
    }
    match exprs.get(bit) {
        Node::Not(inner) => is_level(exprs, inner, pin),
        _ => false,
    }
}

/// Whether the equation says what the device does, or the device does what it says, wherever the equation counts: in a
/// diagram it counts in a state alone.
pub(crate) fn says_always<D: Device>(
    device: &Loaded<D>,
    exprs: &Exprs,
    declared: &Declared,
    given: &Contribution,
) -> bool
    requires { given.now.when.0 < length (arena exprs.now) }
    ensures { result ≡ says_always D.table
        (view_declared declared.now) given.now.target.extension given.now.block given.now.complement (formula_at
        (arena exprs.now) given.now.when) }
{
    let extension = given.target.extension;
    if let Some(_) = given.block {
        return !is_compared::<D>(device, declared, extension);
    }
    match extension {
        Some(Extension::Clk) => is_level_if(exprs, given.when, given.complement, device.clock()),
        Some(Extension::Oe) => match cell_of::<D>(device, declared) {
            None => true,
            Some(cell) => match device.cell(cell).enable {
                Enable::Row(_) => true,
                Enable::PinLow(pin) => is_level_if(exprs, given.when, !given.complement, pin),
                Enable::Driven | Enable::Released => false,
            },
        },
        _ => true,
    }
}
