//! The rows of a section, each asked what its section asks.

use crate::mixed::mixed_device;
use crate::{chains, fits, netlists, refusals, runs, sums, unfit};
use pld_device::{Sample, load};
use std::alloc::Global;
use test_rows::{Found, Report, Row, Section, halves};

/// Puts what is found of a row's text over these names, as the section asks it.
fn ask(alloc: Global, section: &str, names: &Found, text: &str, found: &mut Found) -> Option<()> {
    match section {
        "sums" => sums::put_sum(alloc, text, found),
        "loops of links" => chains::put_loop(alloc, text, found),
        "paths of links to registers" => chains::put_path(alloc, text, found),
        "loops of signals" => chains::put_signal_loop(alloc, text, found),
        "paths of signals from resets" => chains::put_reset_path(alloc, text, found),
        "netlists" => netlists::put_netlist(alloc, names, text, found),
        "refusals of signals" => refusals::put_signals(alloc, names, text, found),
        "refused uses" => refusals::put_uses(alloc, names, text, found),
        "levels of controls" => refusals::put_levels(alloc, names, text, found),
        "designs" => refusals::put_design(alloc, names, text, found),
        "runs" => runs::put_run(alloc, names, text, found),
        "sources that don't fit the sample" => unfit::put_fault(
            alloc,
            &load::<Sample, Sample>(&Sample),
            text,
            found,
        ),
        "sources that don't fit the mixed device" => unfit::put_fault(
            alloc,
            &mixed_device(),
            text,
            found,
        ),
        _ => None,
    }
}

/// Reports a row.
fn ask_row(alloc: Global, section: &str, names: &Found, row: &Row, report: &mut Report) {
    let Some((text, wanted)) = halves(row.text) else {
        report.unread(row.number);
        return;
    };
    let mut found = Found::new(alloc);
    if ask(alloc, section, names, text, &mut found).is_none() {
        found.text(" nothing");
    }
    report.row(row.number, wanted.as_bytes(), &found)
}

/// The report on a section of rows. A row `names ..` has what precedes the text of the rows after it, and a row that
/// begins with a blank goes on with that.
fn report_rows(alloc: Global, section: &Section) -> Found {
    let mut report = Report::new(alloc, section.name);
    let mut names = Found::new(alloc);
    for row in section.rows.as_slice() {
        if let Some(first) = row.text.strip_prefix("names ") {
            names = Found::new(alloc);
            names.text(first);
        } else if row.text.starts_with(' ') {
            names.text(row.text);
        } else {
            ask_row(alloc, section.name, &names, row, &mut report);
        }
    }
    report.end()
}

/// The report on a section; one of fits has blocks.
pub(crate) fn report(alloc: Global, section: &Section) -> Found {
    match section.name {
        "fits of the sample" => fits::report(
            alloc,
            &load::<Sample, Sample>(&Sample),
            section,
            true,
        ),
        "fits of the mixed device" => fits::report(alloc, &mixed_device(), section, true),
        "fits with don't-cares" => fits::report(alloc, &mixed_device(), section, false),
        _ => report_rows(alloc, section),
    }
}
