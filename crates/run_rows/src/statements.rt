//! Statements after what all rows of a section share: a row each.

use crate::answers::{compiled, put_fault, put_held};
use crate::refusals::{Phase, refusal_found};
use crate::texts::lines_of;
use std::alloc::{AllocError, Global};
use test_rows::{Found, Report, Section};

/// The source of a statement after a front.
fn source_of(alloc: Global, front: &str, statement: &str) -> Result<String, AllocError> {
    format!(in alloc; "module m\n{front}{statement}\nend\n")
}

/// The lines with bars between them, if the file of a source has them in this order; else what it has.
fn lines_found(alloc: Global, source: &str, lines: &str) -> Found {
    let mut found = Found::new(alloc);
    match compiled(alloc, source.as_bytes()) {
        Ok(made) => put_held(&mut found, &made, lines, '|'),
        Err(fault) => put_fault(&mut found, &fault),
    }
    found
}

/// Each row below the front is a statement, and lines of its file after bars.
pub fn try_statements(
    alloc: Global,
    section: &Section<'_>,
    report: &mut Report<'_>,
) -> Result<(), AllocError> {
    let blocks = section.blocks(alloc)?;
    let [front, rows] = blocks.as_slice() else {
        report.unread(0);
        return Ok(());
    };
    let front = lines_of(alloc, front)?;
    for row in rows {
        match row.text.split_once('|') {
            Some((statement, lines)) => {
                let source = source_of(alloc, front.as_str(), statement)?;
                let found = lines_found(alloc, source.as_str(), lines);
                report.row(row.number, lines.as_bytes(), &found)
            }
            None => report.unread(row.number),
        }
    }
    Ok(())
}

/// Each row below the front and the lines that all files have is a statement; a bar alone isn't one.
pub fn try_spellings(
    alloc: Global,
    section: &Section<'_>,
    report: &mut Report<'_>,
) -> Result<(), AllocError> {
    let blocks = section.blocks(alloc)?;
    let [front, lines, rows] = blocks.as_slice() else {
        report.unread(0);
        return Ok(());
    };
    let front = lines_of(alloc, front)?;
    let lines = lines_of(alloc, lines)?;
    let lines = lines.trim();
    for row in rows {
        let statement = if row.text == "|" { "" } else { row.text };
        let source = source_of(alloc, front.as_str(), statement)?;
        let mut found = Found::new(alloc);
        match compiled(alloc, source.as_bytes()) {
            Ok(made) => put_held(&mut found, &made, lines, '\n'),
            Err(fault) => put_fault(&mut found, &fault),
        }
        report.row(row.number, lines.as_bytes(), &found)
    }
    Ok(())
}

/// Each row below the front is a statement, and the line on its refusal after a bar.
pub fn try_refused_statements(
    alloc: Global,
    section: &Section<'_>,
    report: &mut Report<'_>,
    phase: Phase,
) -> Result<(), AllocError> {
    let blocks = section.blocks(alloc)?;
    let [front, rows] = blocks.as_slice() else {
        report.unread(0);
        return Ok(());
    };
    let front = lines_of(alloc, front)?;
    for row in rows {
        match row.text.split_once('|') {
            Some((statement, told)) => {
                let source = source_of(alloc, front.as_str(), statement)?;
                let found = refusal_found(alloc, source.as_str(), phase);
                report.row(row.number, told.as_bytes(), &found)
            }
            None => report.unread(row.number),
        }
    }
    Ok(())
}
