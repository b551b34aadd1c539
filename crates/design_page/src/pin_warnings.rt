//! Warnings on the pins that a source declares.

use abel_tree::{Declared, Meaning, Module};
use design_drawings::Design;
use name_uses::ModuleParts;
use page_model::{CellFacts, Drives, PageModel, PinFacts, PinUse};
use placer::seen_in;
use pld_base::{NameText, OutOfMemory, level_at};
use pld_device::{Device, Loaded};
use reports::{Cause, Warning};
use std::alloc::Global;

/// The most pins that `seen_in` is asked for at once, more than a device has.
const MOST_PINS: usize = 32;

/// A warning on a name at its declaration.
fn warning_on(alloc: Global, declared: &Declared, cause: Cause) -> Result<Warning, OutOfMemory> {
    Ok(Warning {
        cause,
        place: declared.place,
        name: NameText::new(alloc, declared.name.bytes())?,
    })
}

/// A pin, if the device has it.
fn pin_at(model: &PageModel, pin: u8) -> Option<&PinFacts> {
    let place = usize::from(pin).saturating_sub(1);
    model.pins.as_slice().get(place)
}

/// The cell on a pin, if it is assigned.
fn assigned_on(model: &PageModel, pin: u8) -> Option<CellFacts> {
    let number = pin_at(model, pin)?.cell?;
    match model.cell(number) {
        Some(cell) if cell.is_assigned => Some(cell),
        _ => None,
    }
}

/// Whether a pin clocks or enables a register that is assigned.
fn serves_registers<D: Device>(device: &Loaded<D>, model: &PageModel, pin: u8) -> bool {
    for cell in model.cells.as_slice() {
        if cell.is_assigned
            && cell.is_register
            && (pin == device.clock() || cell.drives == Drives::WhileLow(pin))
        {
            return true;
        }
    }
    false
}

/// Whether no row reads a pin, and it serves no cell that is assigned.
fn is_idle<D: Device>(device: &Loaded<D>, model: &PageModel, pin: u8) -> bool {
    match pin_at(model, pin) {
        None => false,
        Some(facts) if matches!(facts.used_as, PinUse::Ground | PinUse::Supply) => false,
        Some(facts) => {
            !facts.is_read
                && assigned_on(model, pin).is_none()
                && !serves_registers::<D>(device, model, pin)
        }
    }
}

/// The numbers of the names whose pins nothing uses.
fn idle_pins<D: Device>(device: &Loaded<D>, design: Design) -> Result<Vec<usize>, OutOfMemory> {
    let mut found = Vec::new(design.alloc);
    for (number, declared) in design.names.list.as_slice().iter().enumerate() {
        if let Meaning::Pin { pin, negated: _ } = declared.meaning {
            if is_idle::<D>(device, design.model, pin) {
                found.push(number)?;
            }
        }
    }
    Ok(found)
}

/// Adds the pins that nothing assigns and no section reads.
fn add_unused<D: Device>(
    device: &Loaded<D>,
    found: &mut Vec<Warning>,
    design: Design,
    module: &Module,
) -> Result<(), OutOfMemory> {
    let names = design.names.list.as_slice();
    let idle = idle_pins::<D>(device, design)?;
    let (asked, _) = idle.split_at(idle.len().min(MOST_PINS));
    let source = ModuleParts::new(design.alloc, module)?;
    let seen = seen_in(design.alloc, names, &source, asked)?;
    for (place, number) in asked.iter().enumerate() {
        if !level_at(seen.read, place as u8) {
            if let Some(declared) = names.get(*number) {
                found.push(warning_on(design.alloc, declared, Cause::UnusedPin)?)?;
            }
        }
    }
    Ok(())
}

/// Whether a pin is that of an assigned register which holds it low after power-up: Q is 0 then.
fn is_low_register(model: &PageModel, pin: u8) -> bool {
    match assigned_on(model, pin) {
        Some(cell) => cell.is_register && !cell.is_inverted,
        None => false,
    }
}

/// Adds the active-low registers that are asserted after power-up.
fn add_asserted(found: &mut Vec<Warning>, design: Design) -> Result<(), OutOfMemory> {
    for declared in design.names.list.as_slice() {
        if let Meaning::Pin { pin, negated } = declared.meaning {
            if negated && is_low_register(design.model, pin) {
                found.push(warning_on(design.alloc, declared, Cause::AssertedAtPowerUp)?)?;
            }
        }
    }
    Ok(())
}

/// The warnings on pins that nothing uses, and then on active-low registers that are asserted after power-up.
pub fn pin_warnings<D: Device>(
    device: &Loaded<D>,
    design: Design,
    module: &Module,
) -> Result<Vec<Warning>, OutOfMemory> {
    let mut found = Vec::new(design.alloc);
    add_unused::<D>(device, &mut found, design, module)?;
    add_asserted(&mut found, design)?;
    Ok(found)
}
