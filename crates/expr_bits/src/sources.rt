//! What signals read.

ghost use Rattle.std.specs.Prelude.{◌≡◌, ◌<◌, Some};
ghost use Rattle.expr_bits.specs.Prelude.{is_stored, view_declared, node_source, on_pin, pin_source, register_source, source_by};
ghost use Rattle.expr_bits.specs.{HasLeaf, view_reading};
ghost use Rattle.set_expr.specs.Scopes.{IsPlacedKind};

use abel_tree::{Declared, Extension, Meaning};
use bit_expr::Leaf;
use pld_device::{Device, Loaded, cell_on};

/// A leaf, or the complement of what it carries.
#[derive(Clone, Copy, PartialEq, Eq)]
pub(crate) struct Reading {
    pub complement: bool,
    pub leaf: Leaf,
}

/// A combinational signal on a pin: its level.
fn pin_source(pin: u8, negated: bool, extension: Option<Extension>) -> Option<Reading>
    ensures source { view_reading result ≡ pin_source pin negated extension }
    ensures leaf { pin < 32 → HasLeaf result }
{
    match extension {
        None | Some(Extension::Pin) => Some(Reading {
            complement: negated,
            leaf: Leaf::Pin(pin),
        }),
        Some(_) => None,
    }
}

/// A register in a cell: its pin polarity, or Q itself.
fn cell_source(
    negated: bool,
    buffer: bool,
    cell: u8,
    extension: Option<Extension>,
) -> Option<Reading>
    ensures source { view_reading result ≡ register_source negated buffer (Some cell) extension }
    ensures leaf { cell < 32 → HasLeaf result }
{
    let leaf = Leaf::Q(cell);
    let complement = negated == buffer;
    match extension {
        None | Some(Extension::Fb) => Some(Reading { complement, leaf }),
        Some(Extension::Q) => Some(Reading {
            complement: false,
            leaf,
        }),
        Some(_) => None,
    }
}

/// A node: its value.
fn node_source(node: u8, extension: Option<Extension>) -> Option<Reading>
    ensures source { view_reading result ≡ node_source node extension }
    ensures leaf { node < 128 → HasLeaf result }
{
    match extension {
        None => Some(Reading {
            complement: false,
            leaf: Leaf::Node(node),
        }),
        Some(_) => None,
    }
}

/// A signal on a pin.
fn on_pin<D: Device>(
    device: &Loaded<D>,
    declared: &Declared,
    pin: u8,
    negated: bool,
    extension: Option<Extension>,
) -> Option<Reading>
    ensures source { view_reading result ≡ on_pin D.table (view_declared declared.now) pin negated (is_stored (view_declared declared.now)) extension }
    ensures leaf { pin < 32 → HasLeaf result }
{
    if !declared.is_stored() {
        return pin_source(pin, negated, extension);
    }
    match cell_on::<D>(device, pin) {
        Some(cell) => cell_source(negated, declared.follows_q(), cell, extension),
        None => None,
    }
}

/// What a declared name reads, bare or with an extension; nothing if it is 0. Takes no memory.
pub(crate) fn source_of<D: Device>(
    device: &Loaded<D>,
    declared: &Declared,
    extension: Option<Extension>,
) -> Option<Reading>
    ensures source { view_reading result ≡ source_by D.table (view_declared declared.now) (view_declared declared.now).kind extension }
    ensures leaf { IsPlacedKind (view_declared declared.now).kind → HasLeaf result }
{
    match &declared.meaning {
        Meaning::Pin { pin, negated } => on_pin::<D>(device, declared, *pin, *negated, extension),
        Meaning::Node(number) => node_source(*number, extension),
        Meaning::Constant(_) => None,
        Meaning::DeviceName => None,
    }
}
