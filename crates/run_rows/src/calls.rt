//! Calls of the files and of the report that fail, one number after another, and a fuse file that is cut or changed at each of
//! its bytes.

use crate::runs::{Finished, put_ending, run_line};
use crate::texts::{bytes_of, lines_of};
use std::alloc::{AllocError, Global};
use test_rows::{Found, Report, Section};

// How many calls of each kind are made to fail, each in a run of its own: more than any command makes.
const CALLS: u32 = 5;

/// A command, what its file f holds, and the names that its calls of the files are about, with blanks between them.
#[derive(Clone, Copy)]
struct Command<'a> {
    line: &'a str,
    text: &'a [u8],
    names: &'a str,
}

/// A command of a row, over the source, its fuse file or nothing.
fn command_of<'a>(row: &'a str, source: &'a [u8], file: &'a [u8]) -> Option<Command<'a>> {
    let (line, rest) = row.split_once('|')?;
    let (what, names) = rest.split_once('|')?;
    let text = match what {
        "source" => source,
        "file" => file,
        _ => &[],
    };
    Some(Command { line, text, names })
}

/// Appends what a run gave: the status, the report, what is under out, and whether f is another.
fn put_outcome(found: &mut Found, command: &Command<'_>, done: &Finished) {
    put_ending(found, done);
    put_files(found, command, done)
}

/// Appends what is under out after a run, and whether f is another.
fn put_files(found: &mut Found, command: &Command<'_>, done: &Finished) {
    if let Some(out) = done.files.get("out") {
        found.text(" out ");
        found.put(out)
    }
    if done.files.get("f") != Some(command.text) {
        found.text(" another f")
    }
}

/// What a command amounts to, if the calls of these numbers fail.
fn outcome(alloc: Global, command: &Command<'_>, calls: (u32, u32)) -> Found {
    let mut found = Found::new(alloc);
    match run_line(alloc, command.line, ("f", command.text), calls) {
        Ok(done) => put_outcome(&mut found, command, &done),
        Err(_) => found.text("no memory"),
    }
    found
}

/// Each call of the files that fails is reported with its name, and nothing is written; a call that is not made changes
/// nothing.
fn try_files_calls(alloc: Global, command: &Command<'_>, number: usize, report: &mut Report<'_>) {
    let whole = outcome(alloc, command, (0, 0));
    let mut names = command.names.split_whitespace();
    for call in 1..=CALLS {
        let found = outcome(alloc, command, (call, 0));
        match names.next() {
            Some(name) => {
                let mut wanted = Found::new(alloc);
                wanted.text("6|error file ");
                wanted.text(name);
                report.row(number, wanted.bytes(), &found)
            }
            None => report.row(number, whole.bytes(), &found),
        }
    }
}

/// The first call of the report that fails takes nothing but the report, and no other is made. If a call of the files fails
/// too, nothing is written.
fn try_report_calls(alloc: Global, command: &Command<'_>, number: usize, report: &mut Report<'_>) {
    let Ok(done) = run_line(alloc, command.line, ("f", command.text), (0, 0)) else {
        return report.unread(number);
    };
    let mut wanted = Found::new(alloc);
    wanted.text("7|");
    put_files(&mut wanted, command, &done);
    report.row(number, wanted.bytes(), &outcome(alloc, command, (0, 1)));
    let mut whole = Found::new(alloc);
    put_outcome(&mut whole, command, &done);
    for call in 2..=CALLS {
        report.row(number, whole.bytes(), &outcome(alloc, command, (0, call)))
    }
    report.row(number, b"7|", &outcome(alloc, command, (1, 1)))
}

/// Each row below a source and its fuse file is a command, what f holds, and the names that its calls of the files are about.
pub fn try_failing_calls(
    alloc: Global,
    section: &Section<'_>,
    report: &mut Report<'_>,
) -> Result<(), AllocError> {
    let blocks = section.blocks(alloc)?;
    let [source, file, rows] = blocks.as_slice() else {
        report.unread(0);
        return Ok(());
    };
    let source = lines_of(alloc, source)?;
    let Some(file) = bytes_of(alloc, file)? else {
        report.unread(0);
        return Ok(());
    };
    for row in rows {
        match command_of(row.text, source.as_bytes(), &file) {
            Some(command) => {
                try_files_calls(alloc, &command, row.number, report);
                try_report_calls(alloc, &command, row.number, report)
            }
            None => report.unread(row.number),
        }
    }
    Ok(())
}
