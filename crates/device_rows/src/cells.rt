//! What devices say of their cells, pairs and rows, as text.

use crate::numbers::put_number;
use pld_device::{Carry, Device, Enable, FuseBit, Kinds, Loaded};
use test_rows::Found;

/// Appends what enables a cell.
fn put_enable(enable: Enable, found: &mut Found) {
    match enable {
        Enable::Row(row) => {
            found.text("row ");
            found.number(usize::from(row));
        }
        Enable::PinLow(pin) => {
            found.text("pin ");
            found.number(usize::from(pin));
            found.text(" low");
        }
        Enable::Driven => found.text("always"),
        Enable::Released => found.text("never"),
    }
}

/// The word for what a cell may be.
fn kinds_word(kinds: Kinds) -> &'static str {
    match kinds {
        Kinds::Combinational => "combinational",
        Kinds::Registered => "registered",
        Kinds::Either => "either",
    }
}

/// Appends a fuse and its level, if there is one.
fn put_bit(bit: Option<FuseBit>, found: &mut Found) {
    match bit {
        Some(bit) => {
            found.number(usize::from(bit.fuse));
            found.text(if bit.level { " at 1" } else { " at 0" });
        }
        None => found.text("none"),
    }
}

/// Appends a cell and its control fuses.
pub fn put_cell<D: Device>(device: &Loaded<D>, index: u8, found: &mut Found) {
    if index >= device.cells() {
        return found.text("none");
    }
    let cell = device.cell(index);
    found.text("pin ");
    found.number(usize::from(cell.pin));
    found.text(", ");
    put_enable(cell.enable, found);
    found.text(", ");
    found.number(usize::from(cell.room));
    found.text(" rows from ");
    found.number(usize::from(cell.first));
    found.text(", ");
    found.text(kinds_word(cell.kinds));
    found.text(", ");
    put_bit(device.inverted_at(index), found);
    found.text(", ");
    put_bit(device.registered_at(index), found);
}

/// Appends whether pin 11 enables a cell while it is 0.
pub fn put_low_pin<D: Device>(device: &Loaded<D>, index: u8, found: &mut Found) {
    if index >= device.cells() {
        return found.text("none");
    }
    let is_enabled = device.cell(index).enable == Enable::PinLow(11);
    found.text(if is_enabled { "yes" } else { "no" });
}

/// What a pair carries, None past the last one.
fn carry_of<D: Device>(device: &Loaded<D>, pair: u16) -> Option<Carry> {
    if pair < device.columns() / 2 {
        Some(device.carries(pair))
    } else {
        None
    }
}

/// Appends what a pair carries.
pub fn put_pair<D: Device>(device: &Loaded<D>, pair: u16, found: &mut Found) {
    match carry_of::<D>(device, pair) {
        Some(Carry::Pin(pin)) => {
            found.text("pin ");
            found.number(usize::from(pin));
        }
        Some(Carry::Cell(cell)) => {
            found.text("cell ");
            found.number(usize::from(cell));
        }
        None => found.text("none"),
    }
}

/// Appends the pin that a pair carries, or the pin of the cell that it carries.
pub fn put_pair_pin<D: Device>(device: &Loaded<D>, pair: u16, found: &mut Found) {
    match carry_of::<D>(device, pair) {
        Some(Carry::Pin(pin)) => found.number(usize::from(pin)),
        Some(Carry::Cell(cell)) if cell < device.cells() => found.number(usize::from(
            device.cell(cell).pin,
        )),
        _ => found.text("none"),
    }
}

/// Appends the fuse that switches a row on.
pub fn put_switch<D: Device>(device: &Loaded<D>, row: u16, found: &mut Found) {
    put_number(device.row_switch(row), found);
}

/// Appends a fuse whose level is the same in every design.
pub fn put_fixed<D: Device>(device: &Loaded<D>, index: u16, found: &mut Found) {
    put_bit(device.fixed(index), found);
}
