//! Which pins are free, and which fit a signal.

ghost use Rattle.std.specs.Prelude.{◌≡◌, ◌==◌, ◌&&◌, map, is_some};
ghost use Rattle.placer.specs.Prelude.{list_any, Cell, view_declared, view_meaning, cell_on, is_on_pin, is_taken, is_signal_pin};
ghost use Rattle.placer.specs.Signals.{has_cell_for, has_unsuited_on, is_enabled_by, is_pin_free, is_unsuited, pin_fits};
ghost use Rattle.placer.specs.Wanted.{AreFree};

use abel_tree::{Declared, Meaning};
use design_checks::{has_read_path_on, has_wrong_kind_on};
use pld_base::with_level;
use pld_device::{Cell, Device, Enable, Loaded, cell_on};

/// Whether a pin may have a name: it is neither ground nor the supply.
fn is_signal_pin<D: Device>(device: &Loaded<D>, pin: u8) -> bool
    ensures { result ≡ is_signal_pin D.table pin }
{
    pin != 0 && pin != device.ground() && pin < device.pins()
}

/// Whether the pin enables.
fn is_enabled_by(pin: u8, enable: Enable) -> bool
    ensures { result ≡ is_enabled_by pin enable }
{
    match enable {
        Enable::Row(_) => false,
        Enable::PinLow(enabling) => enabling == pin,
        Enable::Driven => false,
        Enable::Released => false,
    }
}

/// Whether the pin enables some cell.
fn is_enabling<D: Device>(device: &Loaded<D>, pin: u8) -> bool
    ensures { result ≡ list_any (λ (c : Cell). is_enabled_by pin c.enable) D.table.cells }
{
    for index in 0..device.cells() {
        if is_enabled_by(pin, device.cell(index).enable) {
            return true;
        }
    }
    false
}

/// Whether it is declared on the pin. Takes no memory.
pub fn is_on_pin(pin: u8, meaning: &Meaning) -> bool
    ensures { result ≡ is_on_pin pin (view_meaning meaning.now) }
{
    match meaning {
        Meaning::Pin {
            pin: named,
            negated: _,
        } => *named == pin,
        _ => false,
    }
}

/// Whether a number names the pin. Takes no memory.
pub fn is_taken(names: &[Declared], pin: u8) -> bool
    ensures { result ≡ is_taken (map view_declared names.now) pin }
{
    for declared in names {
        if is_on_pin(pin, &declared.meaning) {
            return true;
        }
    }
    false
}

/// Whether the pin is free.
fn is_pin_free<D: Device>(device: &Loaded<D>, names: &[Declared], pin: u8) -> bool
    ensures { result ≡ is_pin_free D.table (map view_declared names.now) pin }
{
    is_signal_pin::<D>(device, pin)
        && pin != device.clock()
        && !is_enabling::<D>(device, pin)
        && !is_taken(names, pin)
}

/// The pins that are free, bit k for pin k.
pub(crate) fn free_pins<D: Device>(device: &Loaded<D>, names: &[Declared]) -> u32
    ensures { AreFree D.table (map view_declared names.now) result }
{
    let mut free = 0;
    for pin in 0..device.pins() {
        if is_pin_free::<D>(device, names, pin) {
            free = with_level(free, pin, true);
        }
    }
    free
}

/// Whether there is a cell on the pin that can be what the signal is.
fn has_cell_for<D: Device>(device: &Loaded<D>, declared: &Declared, pin: u8) -> bool
    ensures { result ≡ has_cell_for D.table (view_declared declared.now) pin }
{
    cell_on::<D>(device, pin).is_some()
        && !has_wrong_kind_on::<D>(device, pin, declared.is_stored())
}

/// Whether a cell with this enable is for what is assigned, where the signal isn't, or for what isn't.
fn is_unsuited(assigned: bool, enable: Enable) -> bool
    ensures { result ≡ is_unsuited assigned enable }
{
    match enable {
        Enable::Row(_) => false,
        Enable::PinLow(_) => false,
        Enable::Driven => !assigned,
        Enable::Released => assigned,
    }
}

/// Whether the cell is on the pin, and is so.
fn is_unsuited_on(cell: &Cell, assigned: bool, pin: u8) -> bool
    ensures { result ≡ ((cell.now.pin == pin) && is_unsuited assigned cell.now.enable) }
{
    cell.pin == pin && is_unsuited(assigned, cell.enable)
}

/// Whether there is such a cell on the pin.
fn has_unsuited_on<D: Device>(device: &Loaded<D>, assigned: bool, pin: u8) -> bool
    ensures { result ≡ has_unsuited_on D.table assigned pin }
{
    for index in 0..device.cells() {
        let cell = device.cell(index);
        if is_unsuited_on(&cell, assigned, pin) {
            return true;
        }
    }
    false
}

/// Whether the pin fits the signal.
pub(crate) fn pin_fits<D: Device>(
    device: &Loaded<D>,
    declared: &Declared,
    read: bool,
    pin: u8,
) -> bool
    ensures { result ≡ pin_fits D.table read (view_declared declared.now) pin }
{
    (!declared.assigned || has_cell_for::<D>(device, declared, pin))
        && !has_unsuited_on::<D>(device, declared.assigned, pin)
        && (!read || has_read_path_on::<D>(device, declared, pin, None))
}
