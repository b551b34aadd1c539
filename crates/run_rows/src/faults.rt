//! Command lines with files that are missing and with calls that fail.

use crate::runs::{Finished, put_ending, run_line};
use crate::texts::{bytes_of, lines_of};
use std::alloc::{AllocError, Global};
use test_rows::{Found, Report, Section};

/// A source, which is under y1, and its fuse file.
#[derive(Clone, Copy)]
struct Design<'a> {
    source: &'a [u8],
    file: &'a [u8],
}

/// The name that the fuse file is under.
fn holder(done: &Finished, design: &Design<'_>) -> &'static str {
    let y1 = done.files.get("y1").unwrap_or(&[]);
    let out = done.files.get("out").unwrap_or(&[]);
    if y1 == design.source && out == design.file {
        "out"
    } else if y1 == design.file && out.is_empty() {
        "y1"
    } else if y1 == design.source && out.is_empty() {
        "-"
    } else {
        "another"
    }
}

/// The numbers of the calls that fail: one of the files, and one of the report.
fn calls_of(text: &str) -> Option<(u32, u32)> {
    let (files, report) = text.split_once(' ')?;
    match (files.parse::<u32>(), report.parse::<u32>()) {
        (Ok(files), Ok(report)) => Some((files, report)),
        _ => None,
    }
}

/// The command of a row, the calls that fail, and what is reported of its run.
fn fault_of(row: &str) -> Option<(&str, (u32, u32), &str)> {
    let (command, rest) = row.split_once('|')?;
    let (calls, told) = rest.split_once('|')?;
    Some((command, calls_of(calls)?, told))
}

/// The name that the fuse file is under after a run, its status and its report.
fn fault_found(alloc: Global, command: &str, calls: (u32, u32), design: &Design<'_>) -> Found {
    let mut found = Found::new(alloc);
    match run_line(alloc, command, ("y1", design.source), calls) {
        Ok(done) => {
            found.text(holder(&done, design));
            found.text("|");
            put_ending(&mut found, &done)
        }
        Err(_) => found.text("no memory"),
    }
    found
}

/// Each row below the source and its fuse file is a command, the calls that fail, the name that the file is under
/// afterwards, the status and the report.
pub fn try_faults(
    alloc: Global,
    section: &Section<'_>,
    report: &mut Report<'_>,
) -> Result<(), AllocError> {
    let blocks = section.blocks(alloc)?;
    let [source, file, rows] = blocks.as_slice() else {
        report.unread(0);
        return Ok(());
    };
    let source = lines_of(alloc, source)?;
    let Some(file) = bytes_of(alloc, file)? else {
        report.unread(0);
        return Ok(());
    };
    let design = Design {
        source: source.as_bytes(),
        file: &file,
    };
    for row in rows {
        match fault_of(row.text) {
            Some((command, calls, told)) => {
                let found = fault_found(alloc, command, calls, &design);
                report.row(row.number, told.as_bytes(), &found)
            }
            None => report.unread(row.number),
        }
    }
    Ok(())
}
