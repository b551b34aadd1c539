//! Runs the rows of a text of sections over the calls that read ABEL-HDL texts, and reports how many rows each section
//! has, and which of them are not as expected.
#![tactic(auto)]

mod attribute_sets;
mod cases;
mod copies;
mod declaration_outlines;
mod declared;
mod expanded;
mod expression_outlines;
mod faults;
mod long_sources;
mod long_texts;
mod models;
mod named_ranges;
mod nests;
mod outlines;
mod parsed;
mod pieces;
mod scanned;
mod sources;
mod statement_outlines;
mod told;
mod warned;

use std::io::{self, Write};
use test_rows::{Found, sections};

/// Writes what a report holds.
fn write_report(rt: &HostRuntime, report: &Found) -> io::Result<()> {
    rt.stdout().write_all(report.bytes())
}

/// Runs the sections of standard input, and then what is no row.
fn main(rt: HostRuntime) -> io::Result<()> {
    let alloc = rt.alloc();
    let text = io::read_to_string(alloc, rt.reader())?;
    let sections = sections(alloc, text.as_str())?;
    for section in sections.as_slice() {
        write_report(&rt, &cases::section_report(alloc, section)?)?;
    }
    write_report(&rt, &pieces::report(alloc))?;
    write_report(&rt, &long_sources::report(alloc))
}
