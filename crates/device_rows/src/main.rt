//! Runs rows of devices, fuse files, graphs and files, and says which are not as they should be.
#![tactic(auto)]

mod asked;
mod bench;
mod bits;
mod calls;
mod cells;
mod drawn;
mod file_texts;
mod full_disk;
mod graphs;
mod listings;
mod loading;
mod lookups;
mod memory_files;
mod model_words;
mod numbers;
mod pins;
mod reading;
mod real_files;
mod sample;
mod shift_register;
mod shifting;
mod simulating;
mod sums;
mod texts;
mod trio;
mod turned;
mod writing;

use std::alloc::Global;
use std::io;
use std::io::Write;
use test_rows::{Found, Report, Section, sections};

/// Asks the rows of a section what its name says; false if no section has the name.
fn ask_section(alloc: Global, section: &Section<'_>, report: &mut Report<'_>) -> bool {
    pins::ask_pins(alloc, section, report)
        || lookups::ask_devices(alloc, section, report)
        || sums::ask_sums(alloc, section, report)
        || loading::ask_loading(alloc, section, report)
        || simulating::ask_vectors(alloc, section, report)
        || reading::ask_reading(alloc, section, report)
        || writing::ask_writing(alloc, section, report)
        || listings::ask_listings(alloc, section, report)
        || drawn::ask_drawn(alloc, section, report)
        || graphs::ask_graphs(alloc, section, report)
        || shifting::ask_shifting(alloc, section, report)
}

/// What is found of a section.
fn found_of(alloc: Global, section: &Section<'_>) -> Found {
    let mut report = Report::new(alloc, section.name);
    if !ask_section(alloc, section, &mut report) {
        report.unread(0);
    }
    report.end()
}

/// Runs the sections of standard input, and then the tests that are no rows.
fn main(rt: HostRuntime) -> io::Result<()> {
    let alloc = rt.alloc();
    let text = io::read_to_string(alloc, rt.stdin())?;
    let mut out = rt.stdout();
    for section in &sections(alloc, text.as_str())? {
        let found = found_of(alloc, section);
        out.write_all(found.bytes())?;
    }
    calls::run_tests(&rt, &mut out)
}
