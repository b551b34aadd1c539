//! Demo sources, run and held against the file that their text is compiled to.

use crate::answers::compiled;
use crate::runs::{ending_found, put_ending, run_line};
use demo_source::demo_text;
use std::alloc::{AllocError, Global};
use test_rows::{Found, Report, Section};

/// The fuse file that a demo source is compiled to.
fn demo_file(alloc: Global, seed: u16) -> Option<Vec<u8>> {
    let text = demo_text(alloc, seed).ok()?;
    let made = compiled(alloc, &text).ok()?;
    Some(made.file)
}

/// The digits of a fuse file's `C` field.
fn sum_told(file: &[u8]) -> &[u8] {
    for line in file.split(|byte| *byte == b'\n') {
        if line.first() == Some(&b'C') {
            return line.get(1..5).unwrap_or(&[]);
        }
    }
    &[]
}

/// The seed of a row, its command, and the status and the report up to the sum.
fn demo_of(row: &str) -> Option<(u16, &str, &str)> {
    let (seed, rest) = row.split_once('|')?;
    let (line, told) = rest.split_once('|')?;
    Some((seed.parse::<u16>().ok()?, line, told))
}

/// The status and the report of a demo, and whether it changes the only file.
fn demo_found(alloc: Global, line: &str) -> Found {
    let mut found = Found::new(alloc);
    match run_line(alloc, line, ("f", b""), (0, 0)) {
        Ok(done) => {
            put_ending(&mut found, &done);
            if done.files.get("f") != Some(b"".as_slice()) {
                found.text(" with another file")
            }
        }
        Err(_) => found.text("no memory"),
    }
    found
}

/// Each row is a seed, the command, the status, and the report up to the sum, which is the compiled file's.
pub fn try_demos(
    alloc: Global,
    section: &Section<'_>,
    report: &mut Report<'_>,
) -> Result<(), AllocError> {
    for row in &section.rows {
        match demo_of(row.text) {
            Some((seed, line, told)) => {
                let mut wanted = Found::new(alloc);
                wanted.text(told);
                wanted.text(" ");
                let file = demo_file(alloc, seed).unwrap_or(Vec::new(alloc));
                wanted.put(sum_told(&file));
                report.row(row.number, wanted.bytes(), &demo_found(alloc, line))
            }
            None => report.unread(row.number),
        }
    }
    Ok(())
}

/// The first demo's file with a level in its last vector for pin 23. A file with another level than its own has no sum.
fn file_with(alloc: Global, level: u8) -> Option<Vec<u8>> {
    let mut file = demo_file(alloc, 1)?;
    // The character of pin 23 precedes the one of pin 24, `*`, a line's end, ETX and the sum.
    let size = file.len();
    if size < 10 || file[size - 10] != b'L' {
        return None;
    }
    if level != b'L' {
        file[size - 10] = level;
        file.truncate(size - 4);
        file.extend_from_slice(b"0000").ok()?;
    }
    Some(file)
}

/// The level of a row, and what is reported of the file with it.
fn level_of(row: &str) -> Option<(u8, &str)> {
    let (level, told) = row.split_once('|')?;
    let byte = level.as_bytes().first()?;
    Some((*byte, told))
}

/// Each row is a level, the status of `simulate` on the first demo's file with it, and the report.
pub fn try_demo_files(
    alloc: Global,
    section: &Section<'_>,
    report: &mut Report<'_>,
) -> Result<(), AllocError> {
    for row in &section.rows {
        let Some((level, told)) = level_of(row.text) else {
            report.unread(row.number);
            continue;
        };
        match file_with(alloc, level) {
            Some(file) => {
                let found = ending_found(alloc, "simulate GAL22V10 d", ("d", &file));
                report.row(row.number, told.as_bytes(), &found)
            }
            None => report.unread(row.number),
        }
    }
    Ok(())
}
