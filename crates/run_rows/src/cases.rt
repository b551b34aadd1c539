//! Sources that are compiled: a block each, which ends with the source.

use crate::answers::{agrees, compiled, put_fault, put_held};
use crate::texts::{lines_of, number_of};
use std::alloc::{AllocError, Global};
use test_rows::{Found, Report, Row, Section, unescaped};

/// What a block says of its source, and the source.
fn told_and_source(
    alloc: Global,
    block: &[Row<'_>],
) -> Result<Option<(String, String)>, AllocError> {
    let text = lines_of(alloc, block)?;
    match text.split_once("\nmodule ") {
        Some((told, rest)) => {
            let told = String::from_str(alloc, told)?;
            let source = format!(in alloc; "module {rest}")?;
            Ok(Some((told, source)))
        }
        None => Ok(None),
    }
}

/// The summary of a source, and the lines of its file that are reported of.
fn case_found(alloc: Global, told: &str, source: &str) -> Found {
    let mut found = Found::new(alloc);
    match compiled(alloc, source.as_bytes()) {
        Ok(made) => {
            found.put(&made.summary);
            if let Some((_, lines)) = told.split_once('\n') {
                put_held(&mut found, &made, lines, '\n')
            }
            if !agrees(alloc, &made) {
                found.text(" with vectors that disagree")
            }
        }
        Err(fault) => put_fault(&mut found, &fault),
    }
    found
}

/// Each block is a summary, lines of a file in their order, and the source, whose vectors agree with its fuses.
pub fn try_cases(
    alloc: Global,
    section: &Section<'_>,
    report: &mut Report<'_>,
) -> Result<(), AllocError> {
    for block in &section.blocks(alloc)? {
        let number = number_of(block);
        match told_and_source(alloc, block)? {
            Some((told, source)) => {
                let found = case_found(alloc, told.as_str(), source.as_str());
                report.row(number, told.as_bytes(), &found)
            }
            None => report.unread(number),
        }
    }
    Ok(())
}

/// The summary of a source and its whole file.
fn whole_found(alloc: Global, source: &str) -> Found {
    let mut found = Found::new(alloc);
    match compiled(alloc, source.as_bytes()) {
        Ok(made) => {
            found.put(&made.summary);
            found.put(&made.file)
        }
        Err(fault) => put_fault(&mut found, &fault),
    }
    found
}

/// Each block is a summary, a whole file with escapes, and the source.
pub fn try_whole_files(
    alloc: Global,
    section: &Section<'_>,
    report: &mut Report<'_>,
) -> Result<(), AllocError> {
    for block in &section.blocks(alloc)? {
        let number = number_of(block);
        let Some((told, source)) = told_and_source(alloc, block)? else {
            report.unread(number);
            continue;
        };
        match unescaped(alloc, told.as_str()) {
            Some(wanted) => report.row(number, &wanted, &whole_found(alloc, source.as_str())),
            None => report.unread(number),
        }
    }
    Ok(())
}

/// The listing of a source, without the last line's end.
fn listing_found(alloc: Global, source: &str) -> Found {
    let mut found = Found::new(alloc);
    match compiled(alloc, source.as_bytes()) {
        Ok(made) => match made.listing.strip_suffix(b"\n") {
            Some(lines) => found.put(lines),
            None => found.text("a listing without a last line's end"),
        },
        Err(fault) => put_fault(&mut found, &fault),
    }
    found
}

/// Each block is a listing and the source.
pub fn try_listings(
    alloc: Global,
    section: &Section<'_>,
    report: &mut Report<'_>,
) -> Result<(), AllocError> {
    for block in &section.blocks(alloc)? {
        let number = number_of(block);
        match told_and_source(alloc, block)? {
            Some((told, source)) => {
                let found = listing_found(alloc, source.as_str());
                report.row(number, told.as_bytes(), &found)
            }
            None => report.unread(number),
        }
    }
    Ok(())
}
