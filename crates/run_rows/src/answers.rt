//! What `compile` answers of a source, as the rows have it.

use crate::runs::run_line;
use abel_compile::{CompileFault, Compiled, compile};
use std::alloc::Global;
use test_rows::Found;

// How many bytes a source may have.
const LIMIT: usize = 1_048_576;

/// What `compile` answers of a source, none of which is longer than it may be.
pub fn compiled(alloc: Global, source: &[u8]) -> Result<Compiled, CompileFault> {
    if source.len() > LIMIT {
        return Err(CompileFault::OutOfMemory);
    }
    compile(alloc, source)
}

/// Appends the line on why a source has no fuse file, without its `error`.
pub fn put_fault(found: &mut Found, fault: &CompileFault) {
    match fault {
        CompileFault::Source(_, line) => put_error(found, line),
        CompileFault::Place(_, line) => put_error(found, line),
        CompileFault::Fit(_, line) => put_error(found, line),
        CompileFault::OutOfMemory => found.text("no memory"),
    }
}

/// Appends a line without its `error` and its end.
fn put_error(found: &mut Found, line: &[u8]) {
    let told = line.strip_prefix(b"error ").unwrap_or(line);
    match told.strip_suffix(b"\n") {
        Some(told) => found.put(told),
        None => {
            found.put(told);
            found.text(" without a line's end")
        }
    }
}

/// Whether these are lines of a text, in this order.
fn has_lines(text: &[u8], lines: &str, between: char) -> bool {
    let Ok(text) = std::str::from_utf8(text) else {
        return false;
    };
    let mut wanted = lines.split(between);
    let mut next = wanted.next();
    for line in text.lines() {
        if next == Some(line) {
            next = wanted.next();
        }
    }
    next.is_none()
}

/// Appends the lines, if the file of what was compiled has them in this order; else the whole file.
pub fn put_held(found: &mut Found, made: &Compiled, lines: &str, between: char) {
    if has_lines(&made.file, lines, between) {
        found.text(lines)
    } else {
        found.put(&made.file)
    }
}

/// Whether the vectors of a file agree on the device with its fuses.
pub fn agrees(alloc: Global, made: &Compiled) -> bool {
    let Ok(line) = format!(in alloc; "simulate {} f", made.device.name.text()) else {
        return false;
    };
    match run_line(alloc, line.as_str(), ("f", &made.file), (0, 0)) {
        Ok(done) => done.status == 0,
        Err(_) => false,
    }
}
