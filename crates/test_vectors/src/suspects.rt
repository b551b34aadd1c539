//! The chips with one wrong fuse that can be told from the right one at all.

ghost use Rattle.std.specs.Prelude.{◌≡◌, ◌<◌, length};

use crate::chip::Chip;
use crate::suspect::{Points, Suspect, Target};
use crate::wiring::{Wired, Wiring};
use covers::Cube;
use device_logic::RowMask;
use pld_base::OutOfMemory;
use pld_device::{Device, Fuses, Loaded, wrong_fuse};
use std::alloc::Global;
use wrong_fuses::{is_fault, with_wrong};

/// Whether the first cube asks all that the second does.
fn lies_in(cube: Cube, other: Cube) -> bool {
    cube.lies_in(other)
}

/// Whether the first mask asks all that the second does.
fn asks_all(mask: RowMask, other: RowMask) -> bool {
    lies_in(mask.pins, other.pins) && lies_in(mask.q, other.q)
}

/// Whether the row is a data row of the cell.
fn has_row(cell: &Wired, row: u16) -> bool {
    cell.first <= row && usize::from(row - cell.first) < cell.rows.len()
}

/// The bit of the pin that the row enables.
fn enabled_by(wiring: &Wiring, row: u16) -> u32 {
    match wiring
        .cells
        .iter()
        .find(|cell| cell.enable_row == Some(row))
    {
        Some(cell) => cell.pin,
        None => 0,
    }
}

/// What differs between the right chip and another one in this row, if it is in a row.
fn target_of<D: Device>(
    right: &Chip<'_, D>,
    other: &Chip<'_, D>,
    wiring: &Wiring,
    row: Option<u16>,
) -> Target {
    let Some(row) = row else {
        return Target {
            row: None,
            loose: RowMask::full(),
            strict: RowMask::full(),
            cell: None,
            enables: 0,
        };
    };
    let (mask, wrong) = (right.mask(row), other.mask(row));
    let is_stricter = wrong.is_empty() || !mask.is_empty() && asks_all(wrong, mask);
    Target {
        row: Some(row),
        loose: if is_stricter { mask } else { wrong },
        strict: if is_stricter { wrong } else { mask },
        cell: wiring.cells.iter().position(|cell| has_row(cell, row)),
        enables: enabled_by(wiring, row),
    }
}

/// The chip with another level at one fuse. None if it is the same, isn't simulated, or is in another mode.
fn suspect_of<'a, D: Device>(
    alloc: Global,
    right: &Chip<'a, D>,
    wiring: &Wiring,
    wrong: &Fuses,
    at: Points,
) -> Result<Option<Suspect<'a, D>>, OutOfMemory>
    requires { length wrong.now ≡ D.table.fuses }
{
    if wrong_fuse::<D>(right.device(), wrong).is_some() {
        return Ok(None);
    }
    let Some(chip) = Chip::load(alloc, right.device(), wrong)? else {
        return Ok(None);
    };
    let has_same_kinds = chip.has_same_kinds(right);
    let row = if has_same_kinds {
        chip.other_row(right)
    } else {
        None
    };
    if has_same_kinds && row.is_none() {
        return Ok(None);
    }
    let target = target_of(right, &chip, wiring, row);
    Ok(Some(Suspect {
        chip,
        target,
        at,
        is_found: false,
        tries: 0,
    }))
}

/// The chips with one wrong fuse that aren't the same as the right one row by row, each at this point.
pub fn suspects_of<'a, D: Device>(
    alloc: Global,
    right: &Chip<'a, D>,
    wiring: &Wiring,
    fuses: &Fuses,
    at: Points,
) -> Result<Vec<Suspect<'a, D>>, OutOfMemory>
    requires { length fuses.now ≡ D.table.fuses }
{
    let mut list = Vec::new(alloc);
    for fuse in 0..right.device().fuses() {
        if !is_fault::<D>(right.device(), fuse) {
            continue;
        }
        let wrong = with_wrong(alloc, fuses, fuse)?;
        if let Some(suspect) = suspect_of(alloc, right, wiring, &wrong, at)? {
            list.push(suspect)?;
        }
    }
    Ok(list)
}
