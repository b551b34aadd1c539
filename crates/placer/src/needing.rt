//! Which signals have to be given pins.

ghost use Rattle.std.specs.Prelude.{◌≡◌, ◌&&◌, nat_lt, IfOk, OnOk, length, map, take};
ghost use Rattle.placer.specs.Prelude.{view_declared, is_buffer_by_default};
ghost use Rattle.placer.specs.Signals.{needs_pin, to_place};
ghost use Rattle.placer.specs.Wanted.{with_signal};

use abel_tree::Declared;
use declared_names::is_unnumbered;
use design_checks::is_registered_node;
use pld_base::OutOfMemory;
use pld_device::{Device, Flip, Loaded};
use std::alloc::Global;

/// How many signals are looked at: no device has as many pins, so that already these can't all be placed.
const MOST: usize = 32;

/// Whether the pin of a register may be Q if nothing is said of it.
fn is_buffer_by_default(flip: Flip) -> bool
    ensures { result ≡ is_buffer_by_default flip }
{
    match flip {
        Flip::Always => false,
        Flip::AfterRegister => true,
        Flip::BeforeRegister => false,
    }
}

/// Whether the signal has to be given a pin.
fn needs_pin<D: Device>(device: &Loaded<D>, declared: &Declared) -> bool
    ensures { result ≡ needs_pin D.table (view_declared declared.now) }
{
    is_unnumbered(&declared.meaning)
        || (is_buffer_by_default(device.flip())
            && (is_registered_node(declared) && declared.assigned))
}

/// Whether there is room for a signal, and it has to be given a pin.
fn is_added<D: Device>(device: &Loaded<D>, signals: &[usize], declared: &Declared) -> bool
    ensures { result ≡ (nat_lt (length signals.now) 32 && needs_pin D.table (view_declared declared.now)) }
{
    signals.len() < MOST && needs_pin::<D>(device, declared)
}

/// Adds the number of a signal that has to be given a pin, if there is room.
fn add_signal<D: Device>(
    device: &Loaded<D>,
    signals: &mut Vec<usize>,
    number: usize,
    declared: &Declared,
) -> Result<(), OutOfMemory>
    ensures { OnOk result (signals.new.items ≡ with_signal D.table signals.old.items number (view_declared declared.now)) }
{
    if !is_added::<D>(device, signals.as_slice(), declared) {
        return Ok(());
    }
    signals.push(number)?;
    Ok(())
}

/// The numbers of the first signals that have to be given pins.
pub(crate) fn to_place<D: Device>(
    alloc: Global,
    device: &Loaded<D>,
    names: &[Declared],
) -> Result<Vec<usize>, OutOfMemory>
    ensures { IfOk result (λ v. v.items ≡ take 32 (to_place D.table (map view_declared names.now))) }
{
    let mut signals = Vec::new(alloc);
    for (number, declared) in names.iter().enumerate() {
        add_signal::<D>(device, &mut signals, number, declared)?;
    }
    Ok(signals)
}
