//! Small devices are loaded with small designs.

ghost use Rattle.pld_machine.specs.Order.{IsOrdered};
ghost use Rattle.device_logic.specs.DeviceLookups.{device_lookups};
ghost use Rattle.device_logic.specs.TrioTable.{trio};

use crate::asked::{Ask, ask_rows};
use crate::sample::sample_device;
use crate::texts::{bits_of, fields_of, fuses_of, joined, put_levels, put_numbers};
use crate::trio::{Trio, trio_device};
use device_logic::{DeviceLogic, SimFault, load};
use pld_base::level_at;
use pld_machine::{Logic, Slot, rest};
use std::alloc::Global;
use test_rows::{Found, Report, Row, Section};

/// Appends why a device is not simulated.
pub fn put_fault(fault: &SimFault, found: &mut Found) {
    match fault {
        SimFault::UnsupportedCondition { vector, pin } => {
            found.text("condition ");
            found.number(*vector as usize);
            found.text(" ");
            found.number(usize::from(*pin));
        }
        SimFault::DeviceLoop(pins) => {
            found.text("loop ");
            put_numbers(pins.as_slice(), found);
        }
        SimFault::DeviceResetReadsRegister(pins) => {
            found.text("reset ");
            put_numbers(pins.as_slice(), found);
        }
        SimFault::OutOfMemory => found.text("no memory"),
    }
}

/// Appends the cells in the order of their slots.
fn put_order(logic: &DeviceLogic<'_, Trio>, found: &mut Found) {
    found.text("order");
    for index in 0..logic.slots() {
        match logic.slot(index) {
            Slot::Cell(cell) => {
                found.text(" ");
                found.number(usize::from(cell));
            }
            Slot::Node(_node) => found.text(" node"),
        }
    }
}

/// Appends the levels of pins 9, 8 and 7 at rest, with these pins at 1 from outside.
fn put_rest(logic: &DeviceLogic<'_, Trio>, high: &str, found: &mut Found)
    requires { IsOrdered (device_lookups trio logic.now.fuses logic.now.order) }
{
    let pins = rest(logic, bits_of(high), 0).pins;
    let levels = [level_at(pins, 9), level_at(pins, 8), level_at(pins, 7)];
    put_levels(&levels, found);
}

/// Three cells with these fuses.
#[derive(Drop)]
struct ThreeCells<'a> {
    fuses: &'a str,
}

impl<'a> Ask for ThreeCells<'a> {
    fn answer(&mut self, alloc: Global, input: &str, found: &mut Found) {
        let Some(fuses) = fuses_of(alloc, self.fuses, 90) else {
            return found.text("not as many fuses");
        };
        let device = trio_device();
        match load(alloc, &device, &fuses) {
            Ok(logic) => match input.strip_prefix("high") {
                Some(high) => put_rest(&logic, high, found),
                None => put_order(&logic, found),
            },
            Err(fault) => put_fault(&fault, found),
        }
    }
}

/// Asks the rows of a block, after what its cells read and the fuses of each.
fn ask_three_cells(alloc: Global, block: &[Row<'_>], report: &mut Report<'_>) {
    if let [_what, fuses @ ..] = block {
        let (fuses, rows) = fuses.split_at(fuses.len().min(3));
        match joined(alloc, fuses) {
            Ok(fuses) => {
                let mut cells = ThreeCells {
                    fuses: fuses.as_str(),
                };
                ask_rows(alloc, rows, &mut cells, report);
            }
            Err(_) => report.unread(0),
        }
    }
}

/// What the reset of the sample device depends on.
#[derive(Clone, Copy)]
struct Resets;

impl Ask for Resets {
    fn answer(&mut self, alloc: Global, input: &str, found: &mut Found) {
        let [_what, fuses, ..] = fields_of(input);
        let Some(fuses) = fuses_of(alloc, fuses, 60) else {
            return found.text("not as many fuses");
        };
        let device = sample_device();
        match load(alloc, &device, &fuses) {
            Ok(_logic) => found.text("loaded"),
            Err(fault) => put_fault(&fault, found),
        }
    }
}

/// Loads what a section's name says.
pub fn ask_loading(alloc: Global, section: &Section<'_>, report: &mut Report<'_>) -> bool {
    if section.name == "what the reset of the sample device depends on" {
        ask_rows(alloc, section.rows.as_slice(), &mut Resets, report);
        return true;
    }
    if section.name != "orders, loops and levels of three cells" {
        return false;
    }
    match section.blocks(alloc) {
        Ok(blocks) => {
            for block in &blocks {
                ask_three_cells(alloc, block.as_slice(), report);
            }
        }
        Err(_) => report.unread(0),
    }
    true
}
