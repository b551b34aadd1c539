//! Runs of the program's top call over files and a report in memory.

use crate::texts::{lines_of, number_of, put_lines};
use abel_cli::run;
use outside::{MemoryFiles, MemorySink};
use pld_base::OutOfMemory;
use std::alloc::{AllocError, Global};
use test_rows::{Found, Report, Section, unescaped};

/// The result of a run: its status, its report, and the files after it.
#[derive(Drop)]
pub struct Finished {
    pub status: u8,
    pub report: MemorySink,
    pub files: MemoryFiles,
}

/// The words of a command line, which blanks part.
fn words_of(alloc: Global, line: &str) -> Result<Vec<String>, OutOfMemory> {
    let mut words = Vec::new(alloc);
    for word in line.split(' ') {
        if !word.is_empty() {
            words.push(String::from_str(alloc, word)?)?;
        }
    }
    Ok(words)
}

/// Runs a command line over files. The call of the files and the call of the report of these numbers fail, if they are not
/// 0.
pub fn run_over(
    alloc: Global,
    line: &str,
    inputs: &[(&str, &[u8])],
    (files_call, report_call): (u32, u32),
) -> Result<Finished, OutOfMemory> {
    let words = words_of(alloc, line)?;
    let mut files = MemoryFiles::new(alloc);
    for (name, bytes) in inputs {
        files.add(name, bytes)?;
    }
    files.fail(files_call)?;
    let mut report = MemorySink::new(alloc);
    report.fail(report_call)?;
    let status = run(alloc, &words, &mut files, &mut report);
    Ok(Finished {
        status,
        report,
        files,
    })
}

/// The same over one file.
pub fn run_line(
    alloc: Global,
    line: &str,
    input: (&str, &[u8]),
    calls: (u32, u32),
) -> Result<Finished, OutOfMemory> {
    run_over(alloc, line, &[input], calls)
}

/// Appends a status, and the lines of a report after bars.
pub fn put_ending(found: &mut Found, done: &Finished) {
    found.number(usize::from(done.status));
    found.text("|");
    put_lines(found, done.report.bytes())
}

/// The status and the report of a command line over one file.
pub fn ending_found(alloc: Global, line: &str, input: (&str, &[u8])) -> Found {
    let mut found = Found::new(alloc);
    match run_line(alloc, line, input, (0, 0)) {
        Ok(done) => put_ending(&mut found, &done),
        Err(_) => found.text("no memory"),
    }
    found
}

/// The status and the report of a command line over the source, and below them what is under `out.jed` then.
fn run_found(alloc: Global, line: &str, source: &[u8]) -> Found {
    let mut found = Found::new(alloc);
    match run_line(alloc, line, ("in.abl", source), (0, 0)) {
        Ok(done) => {
            put_ending(&mut found, &done);
            if let Some(file) = done.files.get("out.jed") {
                found.text("\n");
                found.put(file)
            }
        }
        Err(_) => found.text("no memory"),
    }
    found
}

/// The command of a block; what is reported of its run; and the source. With escapes.
fn parts(text: &str) -> Option<(&str, &str, &str)> {
    let (command, rest) = text.split_once('|')?;
    let (told, _) = rest.split_once("\nmodule ")?;
    let source = rest.get(told.len() + 1..)?;
    Some((command, told, source.strip_suffix('\n')?))
}

/// Each block is a command with its status and its report; the lines under `out.jed` afterwards; and the lines under
/// `in.abl`, the last of which has an end if it is written.
pub fn try_runs(
    alloc: Global,
    section: &Section<'_>,
    report: &mut Report<'_>,
) -> Result<(), AllocError> {
    for block in &section.blocks(alloc)? {
        let text = lines_of(alloc, block)?;
        if !is_run_tried(alloc, text.as_str(), number_of(block), report) {
            report.unread(number_of(block))
        }
    }
    Ok(())
}

/// Tries a block. False for one that can't be read.
fn is_run_tried(alloc: Global, text: &str, number: usize, report: &mut Report<'_>) -> bool {
    let Some((command, told, source)) = parts(text) else {
        return false;
    };
    let (Some(told), Some(source)) = (unescaped(alloc, told), unescaped(alloc, source)) else {
        return false;
    };
    report.row(number, &told, &run_found(alloc, command, &source));
    true
}
