//! Loops and paths of a few links.

use crate::links::{links_of, reads_of};
use crate::places::{put_number, put_word};
use gathering::{first_loop, path_to_register, reset_path, signal_loop};
use std::alloc::Global;
use test_rows::Found;

/// The names of three signals by their numbers.
const SIGNALS: [usize; 3] = [3, 8, 9];

/// Signals by their places, or `none`.
fn put_chain(places: Option<&[u8]>, found: &mut Found) {
    match places {
        Some(places) => {
            for place in places {
                put_number(usize::from(*place), found)
            }
        }
        None => put_word("none", found),
    }
}

/// Signals by their names, or `none`.
fn put_names(names: Option<Vec<usize>>, found: &mut Found) {
    match names {
        Some(names) => {
            for name in names.as_slice() {
                put_number(*name, found)
            }
        }
        None => put_word("none", found),
    }
}

/// The first loop among the links of a text.
pub(crate) fn put_loop(alloc: Global, text: &str, found: &mut Found) -> Option<()> {
    let links = links_of(alloc, text)?;
    match first_loop(alloc, links.as_slice()) {
        Ok(chain) => put_chain(chain.as_ref().map(|it| it.as_slice()), found),
        Err(_) => return None,
    }
    Some(())
}

/// The path to a register from the leaves that precede the links.
pub(crate) fn put_path(alloc: Global, text: &str, found: &mut Found) -> Option<()> {
    let (from, links) = text.split_once(": ")?;
    let from = reads_of(from)?;
    let links = links_of(alloc, links)?;
    match path_to_register(alloc, links.as_slice(), &from) {
        Ok(chain) => put_chain(chain.as_ref().map(|it| it.as_slice()), found),
        Err(_) => return None,
    }
    Some(())
}

/// The first loop among three signals, by their names.
pub(crate) fn put_signal_loop(alloc: Global, text: &str, found: &mut Found) -> Option<()> {
    let links = links_of(alloc, text)?;
    if links.len() != 3 {
        return None;
    }
    put_names(signal_loop(alloc, &SIGNALS, links.as_slice()).ok()?, found);
    Some(())
}

/// The path to a register from a reset that reads the leaves before the links, by names.
pub(crate) fn put_reset_path(alloc: Global, text: &str, found: &mut Found) -> Option<()> {
    let (reset, links) = text.split_once(": ")?;
    let reset = reads_of(reset)?;
    let links = links_of(alloc, links)?;
    if links.len() != 3 {
        return None;
    }
    put_names(
        reset_path(alloc, &SIGNALS, links.as_slice(), &reset).ok()?,
        found,
    );
    Some(())
}
