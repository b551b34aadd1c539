//! Fuses as they were made, and sums of fuses and bytes.

use crate::asked::{Ask, ask_rows};
use crate::texts::{levels_of, put_levels};
use jedec_file::{byte_sum, fuse_sum};
use pld_device::Fuses;
use std::alloc::Global;
use test_rows::{Found, Report, Section, unescaped};

/// What is asked of levels or bytes.
#[derive(Clone, Copy)]
enum Sum {
    Levels,
    OfFuses,
    OfBytes,
}

/// Appends the levels of fuses that are made of them, or their sum.
fn put_of_levels(alloc: Global, sum: Sum, input: &str, found: &mut Found) {
    match (levels_of(alloc, input), sum) {
        (Ok(levels), Sum::Levels) => put_levels(Fuses::from_levels(levels).levels(), found),
        (Ok(levels), _) => found.number(usize::from(fuse_sum(&levels))),
        (Err(_), _) => found.text("no memory"),
    }
}

impl Ask for Sum {
    fn answer(&mut self, alloc: Global, input: &str, found: &mut Found) {
        match *self {
            Sum::OfBytes => match unescaped(alloc, input) {
                Some(bytes) => found.number(usize::from(byte_sum(&bytes))),
                None => found.text("no bytes"),
            },
            sum => put_of_levels(alloc, sum, input, found),
        }
    }
}

/// Adds up what a section's name says.
pub fn ask_sums(alloc: Global, section: &Section<'_>, report: &mut Report<'_>) -> bool {
    let mut asked = if section.name == "levels that fuses have" {
        Sum::Levels
    } else if section.name == "sums of fuses" {
        Sum::OfFuses
    } else if section.name == "sums of bytes" {
        Sum::OfBytes
    } else {
        return false;
    };
    ask_rows(alloc, section.rows.as_slice(), &mut asked, report);
    true
}
