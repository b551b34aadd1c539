//! An assignment of pins to signals, one signal after the other: if no pin that fits the next signal is
//! free, some of those placed before it move to others of their pins (augmenting paths; Kuhn's method).

ghost use Rattle.std.specs.Prelude.{◌≡◌, ℕ, suc, ◌<◌, ◌≤◌, IfOk, IfErr, OnOk, IfNone, IfSome, get_or, length, take};
ghost use Rattle.pin_matching.specs.Assignments.{IsAssignment};
ghost use Rattle.pin_matching.specs.Refusals.{IsRefusal};
ghost use Rattle.pin_matching.specs.Search.{AreReached, AreStuck, IsBegun, IsOpenPlace, IsStuckOr, narrowed};

use crate::fault::Unplaced;
use crate::reaching::{open_place, place_fitting, reach};
use crate::wishes::Wish;
use pld_base::OutOfMemory;
use std::alloc::Global;

/// Gives the free pin to the reached signal at this place, the pin that this one had to an earlier one
/// that it fits, and so on until the next signal has one.
fn shift(
    wishes: &[Wish],
    fixed: &[u32],
    pins: &mut Vec<u32>,
    reached: &[usize],
    start: (usize, u32),
) -> Result<(), OutOfMemory>
    requires fixed { length fixed.now ≤ length wishes.now }
    requires begun { IsBegun (narrowed wishes.now fixed.now) pins.old.items }
    requires reached { AreReached (narrowed wishes.now fixed.now) pins.old.items reached.now }
    requires open { IsOpenPlace (narrowed wishes.now fixed.now) pins.old.items reached.now start }
    ensures { OnOk result
        (IsAssignment (take (suc (length pins.old.items)) (narrowed wishes.now fixed.now)) pins.new.items) }
{
    let (mut place, mut pin) = start;
    while place > 0 {
        let signal = reached[place];
        let left = pins[signal];
        pins[signal] = pin;
        pin = left;
        match place_fitting(wishes, fixed, reached, left) {
            Some(earlier) => place = earlier,
            None => unreachable!(),
        }
    }
    pins.push(pin)?;
    Ok(())
}

/// Places the next signal, or answers the signals that it reaches if none of them has a free pin.
fn place_next(
    alloc: Global,
    wishes: &[Wish],
    fixed: &[u32],
    pins: &mut Vec<u32>,
) -> Result<Option<Vec<usize>>, OutOfMemory>
    requires fixed { length fixed.now ≤ length wishes.now }
    requires begun { IsBegun (narrowed wishes.now fixed.now) pins.old.items }
    ensures { IfOk result (IsStuckOr (narrowed wishes.now fixed.now) (length pins.old.items) pins.new.items) }
{
    let reached = reach(alloc, wishes, fixed, pins.as_slice())?;
    match open_place(wishes, fixed, pins.as_slice(), reached.as_slice()) {
        None => Ok(Some(reached)),
        Some(start) => {
            shift(wishes, fixed, pins, reached.as_slice(), start)?;
            Ok(None)
        }
    }
}

/// What is kept if the next signal can't be placed together with those before it.
fn kept(
    wishes: &[Wish],
    fixed: &[u32],
    pins: &[u32],
    mut reached: Vec<usize>,
) -> Result<Unplaced, OutOfMemory>
    requires begun { IsBegun (narrowed wishes.now fixed.now) pins.now }
    requires stuck { AreStuck (narrowed wishes.now fixed.now) pins.now reached.items }
    ensures { IfOk result (IsRefusal (narrowed wishes.now fixed.now)) }
{
    let places = reached.len() - 1;
    reached.sort()?;
    Ok(Unplaced::NoPlacement {
        signals: reached,
        places,
    })
}

/// An assignment if the first signals have these pins, or why there isn't one.
pub(crate) fn matching(alloc: Global, wishes: &[Wish], fixed: &[u32]) -> Result<Vec<u32>, Unplaced>
    requires fixed { length fixed.now ≤ length wishes.now }
    ensures ok { IfOk result (λ pins. IsAssignment (narrowed wishes.now fixed.now) pins.items) }
    ensures refused { IfErr result (IsRefusal (narrowed wishes.now fixed.now)) }
{
    let mut pins = Vec::new(alloc);
    'placing: while pins.len() < wishes.len() {
        match place_next(alloc, wishes, fixed, &mut pins)? {
            None => {}
            Some(reached) => return Err(kept(wishes, fixed, pins.as_slice(), reached)?),
        }
    }
    Ok(pins)
}
