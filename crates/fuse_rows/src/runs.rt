//! Runs of the program's top call over files and a report in memory.

use crate::texts::put_lines;
use fuse_commands::run;
use outside::{MemoryFiles, MemorySink};
use pld_base::OutOfMemory;
use std::alloc::Global;
use test_rows::Found;

/// The words of a command line, which blanks part.
fn words_of(alloc: Global, line: &str) -> Result<Vec<String>, OutOfMemory> {
    let mut words = Vec::new(alloc);
    for word in line.split(' ') {
        if !word.is_empty() {
            words.push(String::from_str(alloc, word)?)?;
        }
    }
    Ok(words)
}

/// Appends what a run over these files gives: its status and the lines of its report.
fn put_run(
    alloc: Global,
    found: &mut Found,
    line: &str,
    files: &mut MemoryFiles,
) -> Result<(), OutOfMemory> {
    let words = words_of(alloc, line)?;
    let mut report = MemorySink::new(alloc);
    found.number(usize::from(run(alloc, &words, files, &mut report)));
    found.text("|");
    put_lines(found, report.bytes());
    Ok(())
}

/// Appends what each of these runs gives, one after the other over the same files, and the lines under `out` if there is one run, and
/// it wrote them.
fn put_runs(
    alloc: Global,
    found: &mut Found,
    lines: &str,
    input: &[u8],
    second: &[u8],
) -> Result<(), OutOfMemory> {
    let mut files = MemoryFiles::new(alloc);
    files.add("in", input)?;
    files.add("second", second)?;
    for line in lines.split(';') {
        put_run(alloc, found, line, &mut files)?;
    }
    if lines.split_once(';').is_none()
        && let Some(bytes) = files.get("out")
    {
        found.text("out|");
        put_lines(found, bytes);
    }
    Ok(())
}

/// What runs over the bytes under `in` and `second` amount to.
pub fn runs_found(alloc: Global, lines: &str, input: &[u8], second: &[u8]) -> Found {
    let mut found = Found::new(alloc);
    if put_runs(alloc, &mut found, lines, input, second).is_err() {
        found.text("no memory");
    }
    found
}
