//! Wishes as a row shows them, and what they are given.

use pin_matching::{Unplaced, Wish, first_assignment};
use std::alloc::Global;
use test_rows::Found;

/// The wish of a text: pins between blanks, the most preferred one first.
fn wish_of(alloc: Global, text: &str) -> Option<Wish> {
    let mut pins = Vec::new(alloc);
    for word in text.split_whitespace() {
        pins.push(word.parse::<u32>().ok()?).ok()?;
    }
    Some(Wish::new(pins))
}

/// The wishes of a text, between bars; a text `none` has none.
fn wishes_of(alloc: Global, text: &str) -> Option<Vec<Wish>> {
    let mut wishes = Vec::new(alloc);
    if text != "none" {
        for part in text.split('|') {
            wishes.push(wish_of(alloc, part)?).ok()?;
        }
    }
    Some(wishes)
}

/// So many wishes of one text.
fn equal_wishes(alloc: Global, count: usize, text: &str) -> Option<Vec<Wish>> {
    let mut wishes = Vec::new(alloc);
    for _ in 0..count {
        wishes.push(wish_of(alloc, text)?).ok()?;
    }
    Some(wishes)
}

/// Puts the pins in the order of the signals.
fn put_pins(pins: &[u32], found: &mut Found) {
    found.text("pins");
    for pin in pins {
        found.text(" ");
        found.number(*pin as usize)
    }
}

/// Puts the signals that are too many.
fn put_signals(signals: &[usize], found: &mut Found) {
    found.text("signals");
    for signal in signals {
        found.text(" ");
        found.number(*signal)
    }
}

/// Puts the pins that the wishes of a text are given, or the signals that are too many and how many pins fit some of them.
pub(crate) fn put_answer(alloc: Global, text: &str, found: &mut Found) -> Option<()> {
    let wishes = wishes_of(alloc, text)?;
    match first_assignment(alloc, wishes.as_slice()) {
        Ok(pins) => put_pins(pins.as_slice(), found),
        Err(Unplaced::NoPlacement { signals, places }) => {
            put_signals(signals.as_slice(), found);
            found.text(" places ");
            found.number(places)
        }
        Err(Unplaced::OutOfMemory) => return None,
    }
    Some(())
}

/// The same if a text has the number of signals and the one wish of all of them: how many pins they are given, or how many
/// signals are too many.
pub(crate) fn put_sizes(alloc: Global, text: &str, found: &mut Found) -> Option<()> {
    let (count, wish) = text.split_once('|')?;
    let wishes = equal_wishes(alloc, count.trim().parse::<usize>().ok()?, wish)?;
    match first_assignment(alloc, wishes.as_slice()) {
        Ok(pins) => {
            found.number(pins.len());
            found.text(" pins")
        }
        Err(Unplaced::NoPlacement { signals, places }) => {
            found.number(signals.len());
            found.text(" signals places ");
            found.number(places)
        }
        Err(Unplaced::OutOfMemory) => return None,
    }
    Some(())
}
