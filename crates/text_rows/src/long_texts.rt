//! Long texts, given by their parts, with how a reader ends.

use crate::expanded::{given_of, put_ending};
use crate::scanned::LONGEST;
use std::alloc::Global;
use test_rows::{Found, Report, Row, unescaped};

/// Appends a part so many times.
fn put_times(text: &mut Found, times: usize, part: &[u8]) {
    for _ in 0..times {
        text.put(part);
    }
}

/// Appends the part of a row `TIMES PART`, or says that it isn't one.
fn put_part(alloc: Global, text: &mut Found, row: &str) -> Option<()> {
    let (times, part) = row.split_once(' ')?;
    let times = times.parse::<usize>().ok()?;
    let part = unescaped(alloc, part)?;
    if times > LONGEST {
        return None;
    }
    put_times(text, times, part.as_slice());
    Some(())
}

/// How many bytes a reader gives of a text, and its refusal.
fn ending(alloc: Global, text: &[u8]) -> Found {
    let mut found = Found::new(alloc);
    match given_of(alloc, text) {
        Some(given) => {
            found.number(given.bytes.bytes().len());
            put_ending(&mut found, &given)
        }
        None => found.text("too long"),
    }
    found
}

/// Runs a block: the parts of a text, a row each, and after an arrow how it ends.
pub fn run_block(alloc: Global, block: &[Row], report: &mut Report) {
    let mut text = Found::new(alloc);
    for row in block {
        match row.text.strip_prefix("=> ") {
            Some(expected) => {
                let found = ending(alloc, text.bytes());
                report.row(row.number, expected.as_bytes(), &found)
            }
            None => {
                if put_part(alloc, &mut text, row.text).is_none() {
                    report.unread(row.number)
                }
            }
        }
    }
}
