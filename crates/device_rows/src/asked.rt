//! Rows of which each has an input, and what is wanted of it.

use std::alloc::Global;
use test_rows::{Found, Report, Row, halves};

/// What the rows of a section ask.
pub trait Ask {
    /// Appends what is found for a row's input.
    fn answer(&mut self, alloc: Global, input: &str, found: &mut Found);
}

/// Asks what each row asks, and reports what is found.
pub fn ask_rows<A: Ask>(alloc: Global, rows: &[Row<'_>], asked: &mut A, report: &mut Report<'_>) {
    for row in rows {
        match halves(row.text) {
            Some((input, wanted)) => {
                let mut found = Found::new(alloc);
                asked.answer(alloc, input, &mut found);
                report.row(row.number, wanted.as_bytes(), &found);
            }
            None => report.unread(row.number),
        }
    }
}

/// Counts tests that are no rows, each by its place from 1.
pub fn count_tests(alloc: Global, tests: &[bool], report: &mut Report<'_>) {
    for (place, is_met) in tests.iter().enumerate() {
        let mut found = Found::new(alloc);
        if !*is_met {
            found.text("not met");
        }
        report.row(place.saturating_add(1), b"", &found);
    }
}
