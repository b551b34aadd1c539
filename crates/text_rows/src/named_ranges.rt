//! Ranges of names.

use name_uses::range_list;
use std::alloc::Global;
use test_rows::Found;

/// Puts how many names there are, and the first and the last of them.
fn put_names(found: &mut Found, names: &[Vec<u8>]) {
    found.number(names.len());
    if let ([first, ..], [.., last]) = (names, names) {
        found.text(" ");
        found.put(first.as_slice());
        found.text(" ");
        found.put(last.as_slice());
    }
}

/// The names from the first of two names to the second.
pub fn range(alloc: Global, ends: &str) -> Found {
    let mut found = Found::new(alloc);
    let Some((first, last)) = ends.split_once(' ') else {
        return found;
    };
    match range_list(alloc, first.as_bytes(), last.as_bytes()) {
        Ok(names) => put_names(&mut found, names.as_slice()),
        Err(_) => found.text("no memory"),
    }
    found
}
