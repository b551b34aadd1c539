//! The line on a state at which fuse files of two devices differ.

ghost use Rattle.std.specs.Prelude.{◌≡◌, ◌<◌, ◌++◌, ◌==◌, ◌&&◌, IfOk, OnOk, length};
ghost use Rattle.pair_commands.specs.Prelude.{bits, cell_at, is_on, level_char};
ghost use Rattle.pair_commands.specs.PairText.{differ_line, pin_digits, q_on};

use crate::pair_lines::line_on;
use device_logic::cell_of;
use fuse_compare::Difference;
use pld_base::{OutOfMemory, level_at};
use pld_device::{Device, Loaded};
use std::alloc::Global;

/// A level as a digit. Takes no memory.
fn digit(level: bool) -> u8
    ensures { result ≡ level_char level }
{
    if level { b'1' } else { b'0' }
}

/// Appends the levels outside the pins, from pin 1 on.
fn put_levels<D: Device>(
    device: &Loaded<D>,
    text: &mut Vec<u8>,
    outside: u32,
) -> Result<(), OutOfMemory>
    ensures { OnOk result
        (text.new.items ≡ text.old.items ++ pin_digits D.table (is_on (bits 32 outside))) }
{
    for before in 0..device.pins() {
        text.push(digit(level_at(outside, before + 1)))?;
    }
    Ok(())
}

/// Whether a cell is on the pin and its stored Q is 1. Takes no memory.
fn is_on_at<D: Device>(device: &Loaded<D>, stored: u32, cell: u8, pin: u8) -> bool
    requires { cell < length D.table.cells }
    ensures { result ≡ ((cell_at D.table cell).pin == pin && is_on (bits 32 stored) cell) }
{
    cell_of::<D>(device, cell).pin == pin && level_at(stored, cell)
}

/// The stored Q of the cell on a pin, 0 if there is no cell. Takes no memory.
fn q_on<D: Device>(device: &Loaded<D>, stored: u32, pin: u8) -> bool
    ensures { result ≡ q_on D.table (bits 32 stored) pin }
{
    for cell in 0..device.cells() {
        if is_on_at::<D>(device, stored, cell, pin) {
            return true;
        }
    }
    false
}

/// Appends the stored Qs of the cells on the pins, from pin 1 on.
fn put_stored<D: Device>(
    device: &Loaded<D>,
    text: &mut Vec<u8>,
    stored: u32,
) -> Result<(), OutOfMemory>
    ensures { OnOk result
        (text.new.items ≡ text.old.items ++ pin_digits D.table (q_on D.table (bits 32 stored))) }
{
    for before in 0..device.pins() {
        text.push(digit(q_on::<D>(device, stored, before + 1)))?;
    }
    Ok(())
}

/// The line on a state at which fuse files of two devices with the same pins differ.
pub fn differ_line<F: Device, T: Device>(
    alloc: Global,
    device: &Loaded<F>,
    other: &Loaded<T>,
    state: &Difference,
) -> Result<Vec<u8>, OutOfMemory>
    ensures { IfOk result (λ line. line.items ≡ differ_line F.table T.table state.now) }
{
    let mut line = line_on(alloc, b"differ ", device.name(), other.name())?;
    line.extend_from_slice(b" levels ")?;
    put_levels::<F>(device, &mut line, state.outside)?;
    line.extend_from_slice(b" stored ")?;
    put_stored::<F>(device, &mut line, state.stored)?;
    line.extend_from_slice(b" clock ")?;
    line.extend_from_slice(&[digit(state.clocked), b'\n'])?;
    Ok(line)
}
