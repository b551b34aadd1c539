//! Runs of the top call of `abel-fuses` over files in memory. Its rows are in `stdin`.
#![tactic(auto)]

mod rows;
mod runs;
mod texts;

use rows::try_section;
use std::io::{self, Write};
use test_rows::{Report, sections};

/// Tries each section of the input, and writes how many rows it has and which are not as expected.
fn main(rt: HostRuntime) -> io::Result<()> {
    let alloc = rt.alloc();
    let text = io::read_to_string(alloc, rt.stdin())?;
    let mut out = rt.stdout();
    for section in &sections(alloc, text.as_str())? {
        let mut report = Report::new(alloc, section.name);
        try_section(alloc, section, &mut report)?;
        out.write_all(report.end().bytes())?;
    }
    Ok(())
}
