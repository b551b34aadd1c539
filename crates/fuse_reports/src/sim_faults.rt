//! The line of the report on a fuse file that is not loaded or not simulated.

ghost use Rattle.std.specs.Prelude.{◌≡◌, ◌++◌, IsErr, IfOk, OnOk};
ghost use Rattle.device_logic.specs.declared.fault.SimFault.TheVariants as refusal;
ghost use Rattle.fuse_reports.specs.SimFaultText.{pins_text, sim_fault_line, sim_fault_text};

use crate::numbered::put_numbered;
use device_logic::SimFault;
use pld_base::OutOfMemory;
use std::alloc::Global;

/// Appends each pin after a blank.
fn put_pins(alloc: Global, text: &mut Vec<u8>, pins: &[u8]) -> Result<(), OutOfMemory>
    ensures { OnOk result (text.new.items ≡ text.old.items ++ pins_text pins.now) }
{
    for pin in pins {
        put_numbered(alloc, text, b" ", usize::from(*pin))?;
    }
    Ok(())
}

/// Appends a name and the pins of a chain.
fn put_chain(alloc: Global, text: &mut Vec<u8>, name: &[u8], pins: &[u8]) -> Result<(), OutOfMemory>
    ensures { OnOk result (text.new.items
        ≡ text.old.items ++ (name.now ++ pins_text pins.now)) }
{
    text.extend_from_slice(name)?;
    put_pins(alloc, text, pins)?;
    Ok(())
}

/// Appends that a character is not simulated, and its vector and pin.
fn put_condition(alloc: Global, text: &mut Vec<u8>, vector: u32, pin: u8) -> Result<(), OutOfMemory>
    ensures { OnOk result (text.new.items
        ≡ text.old.items ++ sim_fault_text (refusal.UnsupportedCondition vector pin)) }
{
    put_numbered(
        alloc,
        text,
        b"UnsupportedCondition vector ",
        vector as usize,
    )?;
    put_numbered(alloc, text, b" pin ", usize::from(pin))?;
    Ok(())
}

/// Appends the name of a refusal and what was found. Lack of memory is no refusal.
pub fn put_sim_fault(alloc: Global, text: &mut Vec<u8>, fault: &SimFault) -> Result<(), OutOfMemory>
    ensures text { OnOk result (text.new.items ≡ text.old.items ++ sim_fault_text fault.now) }
    ensures memory { fault.now ≡ refusal.OutOfMemory → IsErr result }
{
    match fault {
        SimFault::UnsupportedCondition { vector, pin } => {
            put_condition(alloc, text, *vector, *pin)?;
        }
        SimFault::DeviceLoop(pins) => put_chain(alloc, text, b"DeviceLoop", pins)?,
        SimFault::DeviceResetReadsRegister(pins) => {
            put_chain(alloc, text, b"DeviceResetReadsRegister", pins)?;
        }
        SimFault::OutOfMemory => return Err(OutOfMemory),
    }
    Ok(())
}

/// The line on a refusal. Lack of memory is no refusal.
pub fn sim_fault_line(alloc: Global, fault: &SimFault) -> Result<Vec<u8>, OutOfMemory>
    ensures line { IfOk result (λ text. text.items ≡ sim_fault_line fault.now) }
    ensures memory { fault.now ≡ refusal.OutOfMemory → IsErr result }
{
    let mut text = Vec::from_slice(alloc, b"error ")?;
    put_sim_fault(alloc, &mut text, fault)?;
    text.push(b'\n')?;
    Ok(text)
}
