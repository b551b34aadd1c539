//! Sources with the fuse files that `compile` makes of them, or with the lines on why it makes none; and runs of the
//! program's top call over files in memory. Its rows are in `stdin`.
#![tactic(auto)]

mod answers;
mod calls;
mod cases;
mod commands;
mod demos;
mod each_device;
mod faults;
mod fronts;
mod fuse_files;
mod kinds;
mod pairs;
mod refusals;
mod runs;
mod statements;
mod texts;

use kinds::try_section;
use std::io::{self, Write};
use test_rows::{Report, sections};

/// Tries each section of the input, and writes how many rows it has and which are not as expected.
fn main(rt: HostRuntime) -> io::Result<()> {
    let alloc = rt.alloc();
    let text = io::read_to_string(alloc, rt.stdin())?;
    let mut out = rt.stdout();
    for section in &sections(alloc, text.as_str())? {
        let mut report = Report::new(alloc, section.name);
        try_section(alloc, section, &mut report)?;
        out.write_all(report.end().bytes())?;
    }
    Ok(())
}
