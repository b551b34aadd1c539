//! The pins that a signal may have, the most preferred one first.

ghost use Rattle.std.specs.Prelude.{◌≡◌, ℕ, ◌<◌, ◌≤◌, IfSome, IfNone, true, false, length};
ghost use Rattle.pld_order.specs.Graphs.{has};
ghost use Rattle.pin_matching.specs.Assignments.{fits};
ghost use Rattle.pin_matching.specs.Search.{IsFreePin, narrowed};

use std::marker::Model;

/// The pins that a signal may have, the most preferred one first; contracts see the list.
#[derive(Drop)]
pub struct Wish {
    pins: Vec<u32>,
}

impl Model for Wish {
    ghost use Rattle.std.specs.Prelude.{ℕ, List};

    ghost Value = { List ℕ };

    ghost view = { λ w. w.pins.items };
}

impl Wish {
    /// The wish for these pins.
    pub fn new(pins: Vec<u32>) -> Wish
        ensures { result ≡ pins.items }
    {
        Wish { pins }
    }

    /// The pins.
    pub fn pins(&self) -> &[u32]
        ensures { result.now ≡ self.now }
    {
        self.pins.as_slice()
    }
}

/// Whether the list has the number.
pub(crate) fn is_among(list: &[u32], number: u32) -> bool
    ensures { result ≡ has list.now number }
{
    for x in list {
        if number == *x {
            return true;
        }
    }
    false
}

/// Whether the pin fits the signal, if the first signals have pins already.
pub(crate) fn is_fit(wishes: &[Wish], fixed: &[u32], signal: usize, pin: u32) -> bool
    requires fixed { length fixed.now ≤ length wishes.now }
    requires inside { signal < length wishes.now }
    ensures { result ≡ fits (narrowed wishes.now fixed.now) signal pin }
{
    if signal < fixed.len() {
        pin == fixed[signal]
    } else {
        is_among(wishes[signal].pins(), pin)
    }
}

/// A pin of the list that the other list doesn't have.
fn one_outside(list: &[u32], pins: &[u32]) -> Option<u32>
    ensures found { IfSome result (λ p. (has list.now p ≡ true) × (has pins.now p ≡ false)) }
    ensures none { IfNone result ((p : ℕ) → has list.now p ≡ true → has pins.now p ≡ true) }
{
    for pin in list {
        if !is_among(pins, *pin) {
            return Some(*pin);
        }
    }
    None
}

/// A free pin that fits the signal, if the first signals have pins already.
pub(crate) fn free_pin(wishes: &[Wish], fixed: &[u32], pins: &[u32], signal: usize) -> Option<u32>
    requires fixed { length fixed.now ≤ length wishes.now }
    requires inside { signal < length wishes.now }
    ensures found { IfSome result (IsFreePin (narrowed wishes.now fixed.now) pins.now signal) }
    ensures none { IfNone result
        ((p : ℕ) → fits (narrowed wishes.now fixed.now) signal p ≡ true → has pins.now p ≡ true) }
{
    if signal >= fixed.len() {
        return one_outside(wishes[signal].pins(), pins);
    }
    if is_among(pins, fixed[signal]) {
        None
    } else {
        Some(fixed[signal])
    }
}
