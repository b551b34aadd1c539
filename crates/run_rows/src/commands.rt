//! Command lines with words that are no command, and with files that are too long.

use crate::runs::{put_ending, run_line};
use crate::texts::lines_of;
use std::alloc::{AllocError, Global};
use test_rows::{Found, Report, Section};

/// The status of a command line over an empty file, and its report.
fn usage_found(alloc: Global, line: &str) -> Found {
    let mut found = Found::new(alloc);
    match run_line(alloc, line, ("f", b""), (0, 0)) {
        Ok(done) => {
            found.number(usize::from(done.status));
            found.text("\n");
            found.put(done.report.bytes())
        }
        Err(_) => found.text("no memory"),
    }
    found
}

/// Each row below the usage text is a command line after `abel`, which is answered with that text and status 1.
pub fn try_usage(
    alloc: Global,
    section: &Section<'_>,
    report: &mut Report<'_>,
) -> Result<(), AllocError> {
    let blocks = section.blocks(alloc)?;
    let [usage, rows] = blocks.as_slice() else {
        report.unread(0);
        return Ok(());
    };
    let usage = lines_of(alloc, usage)?;
    let wanted = format!(in alloc; "1\n{usage}")?;
    for row in rows {
        match row.text.strip_prefix("abel") {
            Some(line) => report.row(row.number, wanted.as_bytes(), &usage_found(alloc, line)),
            None => report.unread(row.number),
        }
    }
    Ok(())
}

// A byte more than a file may have.
const TOO_MANY: usize = 1_048_577;

/// Each row is a command over a long file, the status and the report. Nothing is written.
pub fn try_long_files(
    alloc: Global,
    section: &Section<'_>,
    report: &mut Report<'_>,
) -> Result<(), AllocError> {
    let long = vec![in alloc; b'@'; TOO_MANY]?;
    for row in &section.rows {
        match row.text.split_once('|') {
            Some((command, told)) => {
                let found = long_found(alloc, command, &long);
                report.row(row.number, told.as_bytes(), &found)
            }
            None => report.unread(row.number),
        }
    }
    Ok(())
}

/// The status and the report of a command over a file, and whether anything is written.
fn long_found(alloc: Global, command: &str, long: &[u8]) -> Found {
    let mut found = Found::new(alloc);
    match run_line(alloc, command, ("long", long), (0, 0)) {
        Ok(done) => {
            put_ending(&mut found, &done);
            if done.files.get("out").is_some() {
                found.text(" with a file")
            }
        }
        Err(_) => found.text("no memory"),
    }
    found
}
