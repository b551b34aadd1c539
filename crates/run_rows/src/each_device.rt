//! Fuse files of each device by their rows.

use crate::runs::run_line;
use crate::texts::{number_of, put_lines};
use std::alloc::{AllocError, Global};
use test_rows::{Found, Report, Section};

// The fuses of a row in which nothing is connected.
const OPEN: &str = "11111111111111111111111111111111111111111111";

/// A row's fuses from one column to before another, none of them connected.
fn open_fuses(from: usize, to: usize) -> &'static str {
    OPEN.get(from..to).unwrap_or("")
}

/// Appends the field of a row of so many columns: its first fuse, and the columns that are connected.
fn put_row(text: &mut Found, columns: usize, row: &str) {
    let (first, connected) = row.split_once(':').unwrap_or((row, ""));
    text.text("L");
    text.text(first);
    text.text(" ");
    let mut next = 0;
    for column in connected.split(',') {
        if let Ok(column) = column.parse::<usize>() {
            text.text(open_fuses(next, column));
            text.text("0");
            next = column.saturating_add(1);
        }
    }
    text.text(open_fuses(next, columns));
    text.text("*")
}

// What of a command tells a device of other fuses than a PAL16's, with these and its columns. The first that fits counts.
const SIZES: [(&str, &str, usize); 10] = [
    ("22V10C", "5893", 44),
    ("22V10", "5892", 44),
    ("22v10", "5892", 44),
    ("18V10", "3540", 36),
    ("16V8", "2194", 32),
    ("20V8", "2706", 40),
    ("16P8", "2056", 32),
    ("18P8", "2600", 36),
    ("20L10", "1600", 40),
    ("P20", "2560", 40),
];

/// The fuses and the columns of the device that a command names.
fn size_of(command: &str) -> (&'static str, usize) {
    for (name, fuses, columns) in SIZES {
        if command.split_once(name).is_some() {
            return (fuses, columns);
        }
    }
    ("2048", 32)
}

/// The fuse file of a command, with its rows and what follows them.
pub fn file_of(alloc: Global, command: &str, rows: &str, rest: &str) -> Found {
    let (fuses, columns) = size_of(command);
    let mut text = Found::new(alloc);
    text.text("\x02*QF");
    text.text(fuses);
    text.text("*F0*");
    if rows != "-" {
        for row in rows.split(' ') {
            put_row(&mut text, columns, row)
        }
    }
    if rest != "-" {
        text.text(rest)
    }
    text.text("\x030000");
    text
}

/// The status and the report of a command over a fuse file.
fn device_found(alloc: Global, command: &str, file: &Found) -> Result<Found, AllocError> {
    let line = format!(in alloc; "{command} in")?;
    let mut found = Found::new(alloc);
    match run_line(alloc, line.as_str(), ("in", file.bytes()), (0, 0)) {
        Ok(done) => {
            found.number(usize::from(done.status));
            found.text(" ");
            put_lines(&mut found, done.report.bytes())
        }
        Err(_) => found.text("no memory"),
    }
    Ok(found)
}

/// Each block is what it shows, a command, the rows of its file, what follows them, and the status with the report.
pub fn try_devices(
    alloc: Global,
    section: &Section<'_>,
    report: &mut Report<'_>,
) -> Result<(), AllocError> {
    for block in &section.blocks(alloc)? {
        match block.as_slice() {
            [what, command, rows, rest, told] => {
                let file = file_of(alloc, command.text, rows.text, rest.text);
                let found = device_found(alloc, command.text, &file)?;
                report.row(what.number, told.text.as_bytes(), &found)
            }
            _ => report.unread(number_of(block)),
        }
    }
    Ok(())
}
