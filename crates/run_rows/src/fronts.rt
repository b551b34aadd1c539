//! A fuse file that is cut before each of its bytes, or has another byte in the place of each.

use crate::runs::{ending_found, put_ending, run_line};
use crate::texts::{bytes_of, number_of};
use std::alloc::{AllocError, Global};
use test_rows::{Found, Report, Section};

/// No front of a file is one: the empty one has no start, and each other one no end.
pub fn try_fronts(
    alloc: Global,
    section: &Section<'_>,
    report: &mut Report<'_>,
) -> Result<(), AllocError> {
    let number = number_of(&section.rows);
    let Some(file) = bytes_of(alloc, &section.rows)? else {
        report.unread(number);
        return Ok(());
    };
    for length in 0..file.len() {
        let wanted = if length == 0 {
            b"4|error NoStart".as_slice()
        } else {
            b"4|error NoEnd".as_slice()
        };
        let found = ending_found(alloc, "check P16L8 f", ("f", &file[..length]));
        report.row(number, wanted, &found)
    }
    Ok(())
}

// The place of the end of the text in the fuse file; its sum follows.
const END: usize = 178;

/// How the report begins on the file with another byte at a place, before what followed it.
///
/// Every change of one byte changes the sum of the file. It is accepted only if an end of the text takes the place of the L
/// of L0000: the four digits after represent a sum that was not computed, and no fuse needs to be listed after F0.
fn told_of(place: usize, byte: u8, behind: &[u8]) -> &'static str {
    let has_sum = behind.len() >= 4 && behind.iter().take(4).all(|digit| digit.is_ascii_hexdigit());
    if place == 0 {
        "error NoStart\n"
    } else if byte == 3 && behind.starts_with(b"0000") {
        "checked P16L8 "
    } else if byte == 3 && !has_sum {
        "error NoEnd\n"
    } else if place == END || place > END && !byte.is_ascii_hexdigit() {
        "error NoEnd\n"
    } else {
        "error FileSum read "
    }
}

/// What the report on a changed file begins with, if it does and the status says so; else the place, the status and the
/// report.
fn change_found(alloc: Global, place: usize, file: &[u8], told: &str) -> Found {
    let mut found = Found::new(alloc);
    let Ok(done) = run_line(alloc, "check P16L8 f", ("f", file), (0, 0)) else {
        found.text("no memory");
        return found;
    };
    let is_accepted = done.status == 0;
    let begins = done.report.bytes().starts_with(told.as_bytes());
    if begins && is_accepted == told.starts_with("checked") {
        found.text(told)
    } else {
        found.number(place);
        found.text(" ");
        put_ending(&mut found, &done)
    }
    found
}

/// Each byte of the file is changed to each other value.
pub fn try_changed_bytes(
    alloc: Global,
    section: &Section<'_>,
    report: &mut Report<'_>,
) -> Result<(), AllocError> {
    let number = number_of(&section.rows);
    let Some(mut file) = bytes_of(alloc, &section.rows)? else {
        report.unread(number);
        return Ok(());
    };
    for place in 0..file.len() {
        let own = file[place];
        for byte in 0..=u8::MAX {
            if byte == own {
                continue;
            }
            file[place] = byte;
            let told = told_of(place, byte, &file[place + 1..]);
            let found = change_found(alloc, place, &file, told);
            report.row(number, told.as_bytes(), &found)
        }
        file[place] = own;
    }
    Ok(())
}
