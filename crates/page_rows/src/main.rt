//! Runs of the top call of `abel-page` over files in memory. Its rows are in `stdin`.
#![tactic(auto)]

mod rows;
mod runs;
mod texts;

use rows::{try_calls, try_pages, try_shown};
use std::alloc::{AllocError, Global};
use std::io::{self, Write};
use test_rows::{Report, Section, sections};

/// Tries a section, whose name begins with its kind, before a colon.
fn try_section(
    alloc: Global,
    section: &Section<'_>,
    report: &mut Report<'_>,
) -> Result<(), AllocError> {
    let kind = match section.name.split_once(':') {
        Some((kind, _)) => kind,
        None => section.name,
    };
    match kind {
        "pages" => try_pages(alloc, section, report),
        "shown" => try_shown(alloc, section, report),
        "calls" => try_calls(alloc, section, report),
        _ => {
            report.unread(0);
            Ok(())
        }
    }
}

/// Tries each section of the input, and writes how many rows it has and which are not as expected.
fn main(rt: HostRuntime) -> io::Result<()> {
    let alloc = rt.alloc();
    let text = io::read_to_string(alloc, rt.stdin())?;
    let mut out = rt.stdout();
    for section in &sections(alloc, text.as_str())? {
        let mut report = Report::new(alloc, section.name);
        try_section(alloc, section, &mut report)?;
        out.write_all(report.end().bytes())?;
    }
    Ok(())
}
