//! A pin, as a page says of it.

ghost use Rattle.std.specs.Prelude.{◌≡◌, ◌<◌, ◌≤◌, IfOk, IfSome, length};
ghost use Rattle.std.specs.List.{list_any, range_with_len};
ghost use Rattle.abel_tree.specs.Entries.{entries_of};
ghost use Rattle.page_model.specs.Idle.{is_clocked};
ghost use Rattle.page_model.specs.Pins.{clocks_some, drives_on, enables_some, is_enabled_low, pin_facts, pin_use, signal_use};

use crate::drives::{Drives, drives_of};
use crate::idle::is_clocked;
use crate::level_reads::is_read;
use crate::pin_names::label_of;
use abel_tree::Names;
use device_logic::{FuseArray, cell_of};
use pld_base::{NameText, OutOfMemory};
use pld_device::{Device, Enable, Loaded, cell_on};
use std::alloc::Global;

/// What a pin is used as, by the fuses.
#[derive(Clone, Copy, PartialEq, Eq)]
pub enum PinUse {
    Ground,
    Supply,
    /// The device reads its level, as its clock or as what enables cells too, and never drives it.
    Input,
    /// The device drives it, always or at times.
    Output,
    /// The device drives it at times, and reads its level.
    Both,
    /// The device neither drives it nor reads its level.
    Unused,
}

/// A pin: its number, its label, what it is used as, and how the device reads it: by a row that may be true, as the clock of a
/// register that changes, or as what enables cells; and the cell on it.
#[derive(Drop)]
pub struct PinFacts {
    pub number: u8,
    pub label: NameText,
    pub used_as: PinUse,
    pub is_read: bool,
    pub is_clock: bool,
    pub is_enable: bool,
    pub cell: Option<u8>,
}

/// Whether some register may change at its clock.
fn is_some_clocked<D: Device>(array: &FuseArray<'_, D>) -> bool
    ensures { result ≡ list_any (is_clocked D.table array.now) (range_with_len 0 (length D.table.cells)) }
{
    for cell in 0..array.device().cells() {
        if is_clocked(array, cell) {
            return true;
        }
    }
    false
}

/// Whether a pin clocks a register that changes.
fn clocks_some<D: Device>(array: &FuseArray<'_, D>, pin: u8) -> bool
    ensures { result ≡ clocks_some D.table array.now pin }
{
    pin == array.device().clock() && is_some_clocked(array)
}

/// Whether a cell is enabled while a pin is low.
fn is_enabled_low<D: Device>(device: &Loaded<D>, pin: u8, cell: u8) -> bool
    requires { cell < length D.table.cells }
    ensures { result ≡ is_enabled_low D.table pin cell }
{
    match cell_of::<D>(device, cell).enable {
        Enable::PinLow(other) => other == pin,
        Enable::Row(_) | Enable::Driven | Enable::Released => false,
    }
}

/// Whether some cell is enabled while a pin is low.
fn enables_some<D: Device>(device: &Loaded<D>, pin: u8) -> bool
    ensures { result ≡ enables_some D.table pin }
{
    for cell in 0..device.cells() {
        if is_enabled_low::<D>(device, pin, cell) {
            return true;
        }
    }
    false
}

/// When the cell that there may be drives its pin.
fn drives_on<D: Device>(array: &FuseArray<'_, D>, cell: Option<u8>) -> Drives
    requires { IfSome cell (λ c. c < length D.table.cells) }
    ensures { result ≡ drives_on D.table array.now cell }
{
    match cell {
        Some(cell) => drives_of(array, cell),
        None => Drives::Never,
    }
}

/// What a pin for signals is used as, by when it is driven, if rows read it, and if it clocks or enables.
fn signal_use(drives: Drives, is_read: bool, serves: bool) -> PinUse
    ensures { result ≡ signal_use drives is_read serves }
{
    match drives {
        Drives::Never if is_read || serves => PinUse::Input,
        Drives::Never => PinUse::Unused,
        Drives::Always => PinUse::Output,
        Drives::ByRow(_) | Drives::WhileLow(_) if is_read => PinUse::Both,
        Drives::ByRow(_) | Drives::WhileLow(_) => PinUse::Output,
    }
}

/// What a pin is used as. Takes no memory.
fn pin_use<D: Device>(array: &FuseArray<'_, D>, pin: u8) -> PinUse
    ensures { result ≡ pin_use D.table array.now pin }
{
    let device = array.device();
    if pin == device.ground() {
        return PinUse::Ground;
    }
    if pin == device.pins() {
        return PinUse::Supply;
    }
    let drives = drives_on(array, cell_on::<D>(device, pin));
    let serves = clocks_some(array, pin) || enables_some::<D>(device, pin);
    signal_use(drives, is_read(array, pin), serves)
}

/// A pin of a device with its fuses.
pub fn pin_facts<D: Device>(
    alloc: Global,
    array: &FuseArray<'_, D>,
    names: &Names,
    pin: u8,
) -> Result<PinFacts, OutOfMemory>
    ensures { IfOk result (λ facts. facts ≡ pin_facts D.table array.now (entries_of names.now) pin) }
{
    Ok(PinFacts {
        number: pin,
        label: label_of(alloc, names, pin)?,
        used_as: pin_use(array, pin),
        is_read: is_read(array, pin),
        is_clock: clocks_some(array, pin),
        is_enable: enables_some::<D>(array.device(), pin),
        cell: cell_on::<D>(array.device(), pin),
    })
}
