//! The kinds of sections, and what a row of each runs.

use crate::attribute_sets::attribute_set;
use crate::named_ranges::range;
use crate::{copies, declared, expanded, long_texts, models, nests, parsed, scanned, told, warned};
use std::alloc::{AllocError, Global};
use test_rows::{Found, Report, Row, Section, halves, unescaped};

/// The kind of a section: its name up to the colon.
fn kind_of<'a>(name: &'a str) -> &'a str {
    match name.split_once(": ") {
        Some((kind, _)) => kind,
        None => name,
    }
}

/// What is found for the bytes of a row.
fn found_for(alloc: Global, kind: &str, input: &[u8]) -> Option<Found> {
    match kind {
        "Tokens" => Some(scanned::tokens(alloc, input)),
        "Scans" => Some(scanned::scan_result(alloc, input)),
        "Longest scans" => Some(scanned::longest_scan(alloc, input)),
        "Expansions" => Some(expanded::expansion(alloc, input)),
        "Readers" => Some(expanded::reading(alloc, input)),
        "Offsets" => Some(expanded::offsets(alloc, input)),
        "Values" => Some(expanded::value(alloc, input)),
        "Sources" => Some(parsed::reading(alloc, input)),
        "Copies" => Some(copies::copied(alloc, input)),
        "Modules" => Some(told::module(alloc, input)),
        "Warnings" => Some(warned::warnings_of(alloc, input)),
        _ => None,
    }
}

/// What is found for the words of a row.
fn found_in(alloc: Global, kind: &str, input: &str) -> Option<Found> {
    match kind {
        "Devices" => Some(declared::device(alloc, input)),
        "Lines" => Some(told::line(alloc, input)),
        "Attributes" => Some(attribute_set(alloc, input)),
        "Ranges" => Some(range(alloc, input)),
        _ => match unescaped(alloc, input) {
            Some(bytes) => found_for(alloc, kind, bytes.as_slice()),
            None => None,
        },
    }
}

/// Runs a row of the form `INPUT => EXPECTED`.
fn run_plain(alloc: Global, kind: &str, row: Row, report: &mut Report) {
    let Some((input, expected)) = halves(row.text) else {
        return report.unread(row.number);
    };
    match (unescaped(alloc, expected), found_in(alloc, kind, input)) {
        (Some(expected), Some(found)) => report.row(row.number, expected.as_slice(), &found),
        _ => report.unread(row.number),
    }
}

/// What is expected in a row, and what is found.
#[derive(Drop)]
pub struct Case {
    pub expected: Found,
    pub found: Found,
}

/// The case of a row whose form is its own.
fn case_of(alloc: Global, kind: &str, text: &str) -> Option<Case> {
    match kind {
        "Refused sources" => parsed::refused(alloc, text),
        "Nestings" => nests::limit(alloc, text),
        "Sources without a device" => declared::without_device(alloc, text),
        "Declared names" => declared::names(alloc, text),
        "Refused names" => declared::refused(alloc, text),
        "Models" => models::models(alloc, text),
        _ => parsed::outlined(alloc, kind, text),
    }
}

/// Runs a row.
fn run_row(alloc: Global, kind: &str, row: Row, report: &mut Report) {
    match case_of(alloc, kind, row.text) {
        Some(case) => report.row(row.number, case.expected.bytes(), &case.found),
        None => run_plain(alloc, kind, row, report),
    }
}

/// Runs the blocks of a section, or its rows.
fn run(alloc: Global, section: &Section, report: &mut Report) -> Result<(), AllocError> {
    let kind = kind_of(section.name);
    match kind {
        "Places of tokens" => {
            for block in section.blocks(alloc)?.as_slice() {
                scanned::run_block(alloc, block.as_slice(), report);
            }
        }
        "Long texts" => {
            for block in section.blocks(alloc)?.as_slice() {
                long_texts::run_block(alloc, block.as_slice(), report);
            }
        }
        _ => {
            for row in section.rows.as_slice() {
                run_row(alloc, kind, *row, report);
            }
        }
    }
    Ok(())
}

/// Runs a section, and reports on it.
pub fn section_report(alloc: Global, section: &Section) -> Result<Found, AllocError> {
    let mut report = Report::new(alloc, section.name);
    run(alloc, section, &mut report)?;
    Ok(report.end())
}
