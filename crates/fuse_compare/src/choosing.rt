//! The variables for two fuse lists: what rows read, and the pins that enable.
//!
//! A Q that no row reads is fixed at 1, since a stored 0 hides whether the register is reset. If a cell
//! is a register with one of the two lists alone, no Q is a variable: with all registers at 1 that cell
//! has a Q of 1 with the one list alone unless it is reset; so without a difference both are always
//! reset, whatever is stored.

ghost use Rattle.std.specs.Prelude.{◌≡◌, ◌≢◌, ◌<◌, ◌||◌, ℕ, IfOk, false, length, true};
ghost use Rattle.fuse_compare.specs.Prelude.{bits, stores};
ghost use Rattle.fuse_compare.specs.Choosing.{AreKnown, HasKnownPins, HasKnownQs, HoldsRegisters, knows_pin, knows_q};
ghost use Rattle.fuse_compare.specs.Cut.{AreOnce};
ghost use Rattle.fuse_compare.specs.DeviceKnown.{AreChosen};

use crate::reads::{knows_pin, knows_q};
use crate::variable::Variable;
use device_logic::FuseArray;
use pld_base::{OutOfMemory, with_level};
use pld_device::Device;
use std::alloc::Global;

/// The variables of a search, and the Qs that are stored if none is one.
#[derive(Drop)]
pub struct Choice {
    pub vars: Vec<Variable>,
    pub fixed: u32,
}

/// Whether the pin is read or enables, with either list.
fn either_knows_pin<D: Device>(a: &FuseArray<'_, D>, b: &FuseArray<'_, D>, pin: u8) -> bool
    ensures { result ≡ knows_pin D.table a.now b.now pin }
{
    knows_pin(a, pin) || knows_pin(b, pin)
}

/// Whether the register's Q is read, with either list.
fn either_knows_q<D: Device>(a: &FuseArray<'_, D>, b: &FuseArray<'_, D>, cell: u8) -> bool
    ensures { result ≡ knows_q D.table a.now b.now cell }
{
    knows_q(a, cell) || knows_q(b, cell)
}

/// Whether the cell is a register, with either list.
fn either_stores<D: Device>(a: &FuseArray<'_, D>, b: &FuseArray<'_, D>, cell: u8) -> bool
    requires { cell < length D.table.cells }
    ensures { result ≡ (stores D.table a.now cell || stores D.table b.now cell) }
{
    a.stores(cell) || b.stores(cell)
}

/// The pins that a row reads or that enable, with either list.
fn known_pins<D: Device>(
    alloc: Global,
    a: &FuseArray<'_, D>,
    b: &FuseArray<'_, D>,
) -> Result<Vec<Variable>, OutOfMemory>
    ensures { IfOk result (λ vars. HasKnownPins D.table a.now b.now 32 vars.items) }
{
    let mut vars = Vec::new(alloc);
    for pin in 0..32u8 {
        if either_knows_pin(a, b, pin) {
            vars.push(Variable::Pin(pin))?;
        }
    }
    Ok(vars)
}

/// These pins, and the Qs that a row reads, with either list.
fn with_known_qs<D: Device>(
    pins: Vec<Variable>,
    a: &FuseArray<'_, D>,
    b: &FuseArray<'_, D>,
) -> Result<Vec<Variable>, OutOfMemory>
    requires { HasKnownPins D.table a.now b.now 32 pins.items }
    ensures { IfOk result (λ vars.
        HasKnownQs D.table a.now b.now (length D.table.cells) vars.items) }
{
    let mut vars = pins;
    for cell in 0..a.device().cells() {
        if either_knows_q(a, b, cell) {
            vars.push(Variable::Q(cell))?;
        }
    }
    Ok(vars)
}

/// Whether the same cells are registers with both lists.
fn has_same_registers<D: Device>(a: &FuseArray<'_, D>, b: &FuseArray<'_, D>) -> bool
    ensures same { result ≡ true
        → (c : ℕ) → c < length D.table.cells → stores D.table a.now c ≡ stores D.table b.now c }
    ensures other { result ≡ false
        → (c : ℕ) × (c < length D.table.cells) × (stores D.table a.now c ≢ stores D.table b.now c) }
{
    for cell in 0..a.device().cells() {
        if a.stores(cell) != b.stores(cell) {
            return false;
        }
    }
    true
}

/// All registers of either list at 1.
fn registers<D: Device>(a: &FuseArray<'_, D>, b: &FuseArray<'_, D>) -> u32
    ensures { HoldsRegisters D.table a.now b.now (length D.table.cells) (bits 32 result) }
{
    let mut stored = 0;
    for cell in 0..a.device().cells() {
        if either_stores(a, b, cell) {
            stored = with_level(stored, cell, true);
        }
    }
    stored
}

/// The variables for two fuse lists, and what is stored besides.
pub fn choose<D: Device>(
    alloc: Global,
    a: &FuseArray<'_, D>,
    b: &FuseArray<'_, D>,
) -> Result<Choice, OutOfMemory>
    ensures chosen { IfOk result (λ choice.
        AreChosen D.table a.now b.now choice.vars.items (bits 32 choice.fixed)) }
    ensures once { IfOk result (λ choice. AreOnce choice.vars.items) }
    ensures known { IfOk result (λ choice. AreKnown D.table a.now b.now choice.vars.items) }
    ensures fixed { IfOk result (λ choice.
        HoldsRegisters D.table a.now b.now (length D.table.cells) (bits 32 choice.fixed)) }
{
    let fixed = registers(a, b);
    let pins = known_pins(alloc, a, b)?;
    if has_same_registers(a, b) {
        let vars = with_known_qs(pins, a, b)?;
        Ok(Choice { vars, fixed })
    } else {
        Ok(Choice { vars: pins, fixed })
    }
}
