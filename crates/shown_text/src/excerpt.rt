//! A line around a place in it.

use crate::printing::printable;
use pld_base::OutOfMemory;
use std::alloc::Global;

/// The most columns that an excerpt takes.
const COLUMNS: usize = 160;

/// The most columns that a character takes: a tab leads to the next stop, and characters of East Asian scripts are wide.
fn columns_of(char: char) -> usize {
    match char {
        '\t' => 8,
        ' '..='~' => 1,
        _ => 2,
    }
}

/// The most columns that a text takes.
fn columns(text: &str) -> usize {
    let mut columns = 0usize;
    for char in text.chars() {
        columns = columns.saturating_add(columns_of(char));
    }
    columns
}

/// As many characters from the front of a text as have room.
fn head(text: &str, room: usize) -> &str {
    let mut left = room;
    for (at, char) in text.char_indices() {
        if left < columns_of(char) {
            return &text[..text.floor_char_boundary(at)];
        }
        left = left.saturating_sub(columns_of(char));
    }
    text
}

/// As many characters from the end of a text as have room.
fn tail(text: &str, room: usize) -> &str {
    let mut left = room;
    let mut from = text.len();
    for (at, char) in text.char_indices().rev() {
        if left < columns_of(char) {
            break;
        }
        left = left.saturating_sub(columns_of(char));
        from = at;
    }
    &text[text.floor_char_boundary(from)..]
}

/// A line as it is shown around a place in it.
#[derive(Drop)]
pub struct Excerpt {
    /// The line up to the place, or the last part of that.
    pub before: String,
    /// The line from the place on, or the first part of that.
    pub rest: String,
}

/// An excerpt of a line in two parts, before a place and from it on: at most 160 columns of it around the place.
pub fn excerpt_of(alloc: Global, before: &[u8], rest: &[u8]) -> Result<Excerpt, OutOfMemory> {
    let before = printable(alloc, before)?;
    let rest = printable(alloc, rest)?;
    let room = COLUMNS - columns(before.as_str()).min(COLUMNS / 2);
    let shown = head(rest.as_str(), room);
    let front = tail(before.as_str(), COLUMNS.saturating_sub(columns(shown)));
    Ok(Excerpt {
        before: String::from_str(alloc, front)?,
        rest: String::from_str(alloc, shown)?,
    })
}
