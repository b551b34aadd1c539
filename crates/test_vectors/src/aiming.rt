//! Trials that aim at one wrong fuse: its row is to be true on the one chip alone, and to be seen.
//!
//! The levels begin at random but for those that the row asks. Then, some thirty times, what is still in the way is changed:
//! a cell that isn't enabled, a literal that a cell drives, or another row of the cell that is true.

use crate::asked_levels::{Aim, added, missing};
use crate::chance::Chance;
use crate::right::Right;
use crate::suspect::Target;
use crate::trial::Trial;
use crate::wiring::{Wired, pins_of};
use device_logic::RowMask;
use pld_base::Point;
use pld_device::Device;

/// How often something is changed.
const CHANGES: usize = 30;

/// Changes the output of a cell: a row that is true gets another level at one of its pins, or one that isn't gets its own.
fn turn_cell(cell: &Wired, aim: Aim, chance: &mut Chance, at: &Point) -> Aim {
    let mut turned = aim;
    let mut is_true = false;
    for row in &cell.rows {
        if row.holds(at) {
            is_true = true;
            turned.outside ^= chance.bit_of(pins_of(*row) & !aim.fixed);
        }
    }
    if is_true {
        return turned;
    }
    match cell.rows.get(chance.below(cell.rows.len())) {
        Some(row) if !row.is_empty() => aim.to_mask(*row),
        _ => aim,
    }
}

/// Changes the level of one of the pins, from outside or by the cell that drives it. None if that can't be.
fn turn_one<D: Device>(
    right: &Right<'_, D>,
    chance: &mut Chance,
    aim: Aim,
    at: &Point,
    pins: u32,
) -> Option<Aim> {
    let driven = right.chip.shown(at).driven;
    let pin = chance.bit_of(pins & (driven | !aim.fixed));
    if pin == 0 {
        return None;
    }
    if driven & pin == 0 {
        return Some(Aim {
            outside: aim.outside ^ pin,
            fixed: aim.fixed,
        });
    }
    match right.wiring.cell_on(pin) {
        Some(cell) if !cell.stores => Some(turn_cell(cell, aim, chance, at)),
        _ => None,
    }
}

/// The first other row of the cell that is true.
fn other_row(cell: &Wired, target: &Target, at: &Point) -> Option<RowMask> {
    let own = target.row.map(usize::from);
    for (index, row) in cell.rows.iter().enumerate() {
        if row.holds(at) && own != Some(usize::from(cell.first).saturating_add(index)) {
            return Some(*row);
        }
    }
    None
}

/// Changes one thing that is in the way. None if nothing is, or nothing can be done.
fn mended<D: Device>(
    right: &Right<'_, D>,
    chance: &mut Chance,
    target: &Target,
    aim: Aim,
    at: &Point,
) -> Option<Aim> {
    let cell = target.cell.and_then(|index| right.wiring.cells.get(index));
    let disabled = cell.filter(|cell| !cell.enable.holds(at));
    if let Some(cell) = disabled
        && let Some(enabled) = turn_one(right, chance, aim, at, missing(cell.enable, at))
    {
        return Some(enabled);
    }
    if !target.loose.holds(at) {
        return turn_one(right, chance, aim, at, missing(target.loose, at));
    }
    if target.strict.holds(at) {
        return turn_one(right, chance, aim, at, added(target));
    }
    let row = other_row(cell?, target, at)?;
    turn_one(right, chance, aim, at, pins_of(row))
}

/// A trial that aims at a wrong fuse, from these Qs and this level of the clock.
pub fn aim_at<D: Device>(
    right: &Right<'_, D>,
    chance: &mut Chance,
    target: &Target,
    before: &Point,
) -> Trial {
    let clock = right.wiring.clock;
    let held = before.pins & clock;
    let mut aim = Aim::begun(target, chance, right.wiring.pins, clock);
    if target.row.is_some() {
        for _ in 0..CHANGES {
            let at = right.chip.rest(aim.outside | held, before.q);
            match mended(right, chance, target, aim, &at) {
                Some(next) => aim = next,
                None => break,
            }
        }
    }
    let released = chance.word() & chance.word() & !right.wiring.asked;
    Trial {
        outside: aim.outside | held,
        is_pulse: clock != 0 && chance.below(4) != 0,
        released: released | target.enables,
    }
}
