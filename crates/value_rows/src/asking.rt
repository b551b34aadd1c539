//! The rows of a section, each asked what its section asks.

use crate::{bases, expressions, statements, tables, targets, vectors, words};
use std::alloc::Global;
use test_rows::{Found, Report, Row, Section, halves};

/// Puts what is found of a row's text over these names, as the section asks it.
fn ask(alloc: Global, section: &str, names: &Found, text: &str, found: &mut Found) -> Option<()> {
    let (about, question) = section.split_once(": ")?;
    match about {
        "expressions" => expressions::ask(alloc, question, names, text, found),
        "statements" => statements::ask(alloc, question, names, text, found),
        "tables" => tables::ask(alloc, question, names, text, found),
        "vectors" => vectors::ask(alloc, question, names, text, found),
        "targets" => targets::ask(alloc, names, text, found),
        "words" => words::ask(alloc, question, text, found),
        "bases" => bases::ask(alloc, question, text, found),
        _ => None,
    }
}

/// Reports a row.
fn ask_row(alloc: Global, section: &str, names: &Found, row: &Row, report: &mut Report) {
    let Some((text, wanted)) = halves(row.text) else {
        report.unread(row.number);
        return;
    };
    let mut found = Found::new(alloc);
    if ask(alloc, section, names, text, &mut found).is_none() {
        found.text(" nothing");
    }
    report.row(row.number, wanted.as_bytes(), &found)
}

/// The report on a section. A row `names ..` declares the names of the rows after it, and a row that begins with a blank
/// declares more.
pub(crate) fn report(alloc: Global, section: &Section) -> Found {
    let mut report = Report::new(alloc, section.name);
    let mut names = Found::new(alloc);
    for row in section.rows.as_slice() {
        if let Some(first) = row.text.strip_prefix("names ") {
            names = Found::new(alloc);
            names.text(first);
        } else if row.text.starts_with(' ') {
            names.text(row.text);
        } else {
            ask_row(alloc, section.name, &names, row, &mut report);
        }
    }
    report.end()
}
