//! What the right chip's cells and rows ask, as the search looks them up.

use crate::chip::Chip;
use crate::test::bit;
use device_logic::{RowMask, cell_of};
use pld_base::OutOfMemory;
use pld_device::{Device, Enable};
use std::alloc::Global;

/// A cell: the bit of its pin, what enables it, and the number of that row, if it is one; its data rows from the first on, and
/// whether it is a register.
#[derive(Drop)]
pub struct Wired {
    pub pin: u32,
    pub enable: RowMask,
    pub enable_row: Option<u16>,
    pub first: u16,
    pub rows: Vec<RowMask>,
    pub stores: bool,
}

/// The cells of a chip; the pins that have an outside level, of which the clock's is one, if there are registers; what
/// resets them; and the pins that some row asks.
#[derive(Drop)]
pub struct Wiring {
    pub cells: Vec<Wired>,
    pub pins: u32,
    pub clock: u32,
    pub reset: RowMask,
    pub preset: RowMask,
    pub asked: u32,
}

/// The pins that a mask asks.
pub fn pins_of(mask: RowMask) -> u32 {
    if mask.is_empty() {
        0
    } else {
        mask.pins.yes | mask.pins.no
    }
}

/// What enables a cell, as a mask.
fn enable_of<D: Device>(chip: &Chip<'_, D>, enable: Enable) -> RowMask {
    match enable {
        Enable::Row(row) => chip.mask(row),
        Enable::PinLow(pin) if pin < 32 => RowMask::full().with_pin(pin, false),
        Enable::PinLow(_) | Enable::Driven => RowMask::full(),
        Enable::Released => RowMask::never(),
    }
}

/// The masks of the rows from the first on, so many.
fn rows_of<D: Device>(
    alloc: Global,
    chip: &Chip<'_, D>,
    first: u16,
    room: u8,
) -> Result<Vec<RowMask>, OutOfMemory> {
    let mut rows = Vec::new(alloc);
    for index in 0..u16::from(room) {
        rows.push(chip.mask(first.saturating_add(index)))?;
    }
    Ok(rows)
}

/// The cells of a chip.
fn cells_of<D: Device>(alloc: Global, chip: &Chip<'_, D>) -> Result<Vec<Wired>, OutOfMemory> {
    let mut cells = Vec::new(alloc);
    for index in 0..chip.device().cells() {
        let cell = cell_of::<D>(chip.device(), index);
        cells.push(Wired {
            pin: bit(cell.pin),
            enable: enable_of(chip, cell.enable),
            enable_row: match cell.enable {
                Enable::Row(row) => Some(row),
                Enable::PinLow(_) | Enable::Driven | Enable::Released => None,
            },
            first: cell.first,
            rows: rows_of(alloc, chip, cell.first, cell.room)?,
            stores: chip.stores(index),
        })?;
    }
    Ok(cells)
}

/// What a row asks, if there is one.
fn mask_of<D: Device>(chip: &Chip<'_, D>, row: Option<u16>) -> RowMask {
    match row {
        Some(row) => chip.mask(row),
        None => RowMask::never(),
    }
}

/// The pins that some row asks.
fn asked_pins<D: Device>(chip: &Chip<'_, D>) -> u32 {
    let mut asked = 0;
    for row in 0..chip.device().rows() {
        asked |= pins_of(chip.mask(row));
    }
    asked
}

/// The bits of the pins but the ground and the supply.
fn signal_pins<D: Device>(chip: &Chip<'_, D>) -> u32 {
    let mut pins = 0;
    for pin in 1..chip.device().pins() {
        if pin != chip.device().ground() {
            pins |= bit(pin);
        }
    }
    pins
}

/// The wiring of a chip.
pub fn wiring_of<D: Device>(alloc: Global, chip: &Chip<'_, D>) -> Result<Wiring, OutOfMemory> {
    let cells = cells_of(alloc, chip)?;
    let clock = match chip.device().clock() {
        0 => 0,
        _ if !cells.iter().any(|cell| cell.stores) => 0,
        pin => bit(pin),
    };
    Ok(Wiring {
        cells,
        pins: signal_pins(chip),
        clock,
        reset: mask_of(chip, chip.device().reset()),
        preset: mask_of(chip, chip.device().preset()),
        asked: asked_pins(chip),
    })
}

impl Wiring {
    /// The cell that drives a pin at a point where these pins are driven.
    pub fn cell_on(&self, pin: u32) -> Option<&Wired> {
        self.cells.iter().find(|cell| cell.pin == pin)
    }
}
