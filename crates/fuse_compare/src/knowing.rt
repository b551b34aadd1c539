//! What is known of two loaded devices before they are searched.

ghost use Rattle.std.specs.Prelude.{◌≡◌, ◌<◌, ℕ, IfOk, false, length};
ghost use Rattle.fuse_compare.specs.Prelude.{bits, IsPoint, Levels, enabled_by, EnableInRange, device_lookups};
ghost use Rattle.fuse_compare.specs.Cut.{AreFreePins, AreKeptQs, DifferWithin};
ghost use Rattle.fuse_compare.specs.OwnRows.{NeverDrives, NeverResets};
ghost use Rattle.fuse_compare.specs.Searching.{IsCut};

use crate::cut::Cut;
use crate::masked::MaskedLogic;
use crate::own_rows::{has_same_kinds, own_rows};
use device_logic::{RowMask, cell_of};
use pld_base::{OutOfMemory, with_level};
use pld_device::{Device, Enable};
use std::alloc::Global;

/// Whether what enables a cell may do so.
fn may_enable<D: Device>(logic: &MaskedLogic<'_, D>, enable: Enable) -> bool
    requires { EnableInRange D.table enable }
    ensures { result ≡ false → (at : Levels) → IsPoint at
        → enabled_by D.table logic.now.fuses at enable ≡ false }
{
    match enable {
        Enable::PinLow(_) | Enable::Driven => true,
        Enable::Released => false,
        Enable::Row(row) => !logic.mask(row).is_empty(),
    }
}

/// Whether the cell is on the pin and may drive it.
fn may_drive<D: Device>(logic: &MaskedLogic<'_, D>, cell: u8, pin: u8) -> bool
    requires { cell < length D.table.cells }
    ensures { result ≡ false → NeverDrives D.table logic.now.fuses cell pin }
{
    let found = cell_of::<D>(logic.device(), cell);
    found.pin == pin && may_enable(logic, found.enable)
}

/// Whether some cell may drive the pin.
fn is_driven<D: Device>(logic: &MaskedLogic<'_, D>, pin: u8) -> bool
    ensures { result ≡ false → (c : ℕ) → c < length D.table.cells
        → NeverDrives D.table logic.now.fuses c pin }
{
    for cell in 0..logic.device().cells() {
        if may_drive(logic, cell, pin) {
            return true;
        }
    }
    false
}

/// The pins that no cell ever drives.
fn free_pins<D: Device>(logic: &MaskedLogic<'_, D>) -> u32
    ensures { AreFreePins (device_lookups D.table logic.now.fuses logic.now.order) (bits 32 result) }
{
    let mut pins = 0;
    for pin in 0..32u8 {
        if !is_driven(logic, pin) {
            pins = with_level(pins, pin, true);
        }
    }
    pins
}

/// Whether the device may be reset.
fn may_reset<D: Device>(logic: &MaskedLogic<'_, D>) -> bool
    ensures { result ≡ false → NeverResets D.table logic.now.fuses }
{
    match logic.device().reset() {
        None => false,
        Some(row) => !logic.mask(row).is_empty(),
    }
}

/// The registers that are never reset.
fn kept_qs<D: Device>(logic: &MaskedLogic<'_, D>) -> u32
    ensures { AreKeptQs (device_lookups D.table logic.now.fuses logic.now.order) (bits 32 result) }
{
    let mut cells = 0;
    if may_reset(logic) {
        return cells;
    }
    for cell in 0..logic.device().cells() {
        if logic.array().stores(cell) {
            cells = with_level(cells, cell, true);
        }
    }
    cells
}

/// Masks outside which both devices answer the same; where kinds or polarities differ, one that holds
/// everywhere.
fn own_masks<D: Device>(
    alloc: Global,
    a: &MaskedLogic<'_, D>,
    b: &MaskedLogic<'_, D>,
) -> Result<Vec<RowMask>, OutOfMemory>
    ensures { IfOk result (λ own. DifferWithin (device_lookups D.table a.now.fuses a.now.order)
        (device_lookups D.table b.now.fuses b.now.order) own.items) }
{
    if has_same_kinds(a, b) {
        return own_rows(alloc, a, b);
    }
    let mut own = Vec::new(alloc);
    own.push(RowMask::full())?;
    Ok(own)
}

/// What is known of two loaded devices.
pub fn cut_of<D: Device>(
    alloc: Global,
    a: &MaskedLogic<'_, D>,
    b: &MaskedLogic<'_, D>,
) -> Result<Cut, OutOfMemory>
    ensures { IfOk result (λ cut. IsCut (device_lookups D.table a.now.fuses a.now.order)
        (device_lookups D.table b.now.fuses b.now.order) cut) }
{
    let own = own_masks(alloc, a, b)?;
    Ok(Cut {
        own,
        free: free_pins(a),
        kept: kept_qs(a),
    })
}
