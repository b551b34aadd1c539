//! The signals that a signal without a pin reaches: itself, and again and again those whose pins fit one
//! of them (the alternating paths of a matching).
//!
//! `pins` are those of the placed signals in order, `reached` the signals reached so far.

ghost use Rattle.std.specs.Prelude.{◌≡◌, ℕ, ◌<◌, ◌≤◌, IfOk, IfSome, IfNone, true, false, get_or, length};
ghost use Rattle.pld_order.specs.Graphs.{has};
ghost use Rattle.pin_matching.specs.Assignments.{fits};
ghost use Rattle.pin_matching.specs.Search.{
  AreReached,
  IsBegun,
  IsClosed,
  IsFirstFitting,
  IsOpenPlace,
  LeadsOn,
  NoneFits,
  NoneIsFree,
  narrowed,
};

use crate::wishes::{Wish, free_pin, is_fit};
use pld_base::OutOfMemory;
use std::alloc::Global;

/// Whether the list has the signal.
fn is_reached(list: &[usize], signal: usize) -> bool
    ensures { result ≡ has list.now signal }
{
    for s in list {
        if signal == *s {
            return true;
        }
    }
    false
}

/// The place of the first of these signals that the pin fits.
pub(crate) fn place_fitting(
    wishes: &[Wish],
    fixed: &[u32],
    reached: &[usize],
    pin: u32,
) -> Option<usize>
    requires fixed { length fixed.now ≤ length wishes.now }
    requires inside { (s : ℕ) → has reached.now s ≡ true → s < length wishes.now }
    ensures found { IfSome result (IsFirstFitting (narrowed wishes.now fixed.now) reached.now pin) }
    ensures none { IfNone result (NoneFits (narrowed wishes.now fixed.now) reached.now pin) }
{
    for (i, signal) in reached.iter().enumerate() {
        if is_fit(wishes, fixed, *signal, pin) {
            return Some(i);
        }
    }
    None
}

/// A placed signal that isn't among these, though its pin fits one of them.
fn next_reached(wishes: &[Wish], fixed: &[u32], pins: &[u32], reached: &[usize]) -> Option<usize>
    requires fixed { length fixed.now ≤ length wishes.now }
    requires inside { (s : ℕ) → has reached.now s ≡ true → s < length wishes.now }
    ensures found { IfSome result (LeadsOn (narrowed wishes.now fixed.now) pins.now reached.now) }
    ensures none { IfNone result (IsClosed (narrowed wishes.now fixed.now) pins.now reached.now) }
{
    for t in 0..pins.len() {
        if !is_reached(reached, t) {
            if let Some(_) = place_fitting(wishes, fixed, reached, pins[t]) {
                return Some(t);
            }
        }
    }
    None
}

/// All signals that the next one reaches.
pub(crate) fn reach(
    alloc: Global,
    wishes: &[Wish],
    fixed: &[u32],
    pins: &[u32],
) -> Result<Vec<usize>, OutOfMemory>
    requires fixed { length fixed.now ≤ length wishes.now }
    requires more { length pins.now < length wishes.now }
    ensures reached { IfOk result (λ set. AreReached (narrowed wishes.now fixed.now) pins.now set.items) }
    ensures closed { IfOk result (λ set. IsClosed (narrowed wishes.now fixed.now) pins.now set.items) }
{
    let mut reached = Vec::new(alloc);
    reached.push(pins.len())?;
    loop {
        match next_reached(wishes, fixed, pins, reached.as_slice()) {
            None => return Ok(reached),
            Some(signal) => reached.push(signal)?,
        }
    }
}

/// The place of the first of these signals that a free pin fits, and that pin.
pub(crate) fn open_place(
    wishes: &[Wish],
    fixed: &[u32],
    pins: &[u32],
    reached: &[usize],
) -> Option<(usize, u32)>
    requires fixed { length fixed.now ≤ length wishes.now }
    requires inside { (s : ℕ) → has reached.now s ≡ true → s < length wishes.now }
    ensures found { IfSome result (IsOpenPlace (narrowed wishes.now fixed.now) pins.now reached.now) }
    ensures none { IfNone result (NoneIsFree (narrowed wishes.now fixed.now) pins.now reached.now) }
{
    for (i, signal) in reached.iter().enumerate() {
        if let Some(pin) = free_pin(wishes, fixed, pins, *signal) {
            return Some((i, pin));
        }
    }
    None
}
