//! The rows of a section, each asked what its section asks.

use crate::wishes::{put_answer, put_sizes};
use std::alloc::Global;
use test_rows::{Found, Report, Section, halves};

/// Puts what is found of a row's text, as the section asks it.
fn ask(alloc: Global, section: &str, text: &str, found: &mut Found) -> Option<()> {
    match section {
        "wishes" => put_answer(alloc, text, found),
        "signals with one wish" => put_sizes(alloc, text, found),
        _ => None,
    }
}

/// The report on a section.
pub(crate) fn report(alloc: Global, section: &Section) -> Found {
    let mut report = Report::new(alloc, section.name);
    for row in section.rows.as_slice() {
        let Some((text, wanted)) = halves(row.text) else {
            report.unread(row.number);
            continue;
        };
        let mut found = Found::new(alloc);
        if ask(alloc, section.name, text, &mut found).is_none() {
            found.text("nothing");
        }
        report.row(row.number, wanted.as_bytes(), &found)
    }
    report.end()
}
