//! Runs of the program's top call over files and a report in memory.

ghost use Rattle.std.specs.Prelude.{◌<◌, ◌≤◌, length};

use crate::texts::put_lines;
use design_page::run;
use outside::{MemoryFiles, MemorySink};
use pld_base::OutOfMemory;
use std::alloc::Global;
use test_rows::Found;

/// The words of a command line, which blanks part.
fn words_of(alloc: Global, line: &str) -> Result<Vec<String>, OutOfMemory> {
    let mut words = Vec::new(alloc);
    for word in line.split(' ') {
        if !word.is_empty() {
            words.push(String::from_str(alloc, word)?)?;
        }
    }
    Ok(words)
}

/// The file `other` before a run, which is no page.
const OTHER: &[u8] = b"old\n";

/// The file `page` before a run, the front of a page.
const PAGE: &[u8] =
    b"<!DOCTYPE html>\n<html lang=\"en\">\n<head>\n<meta charset=\"utf-8\">\n<meta name=\"viewport\" content=\"width=device-width, initial-scale=1\">\n<title>old";

/// Whether a name has just these bytes.
fn holds(files: &MemoryFiles, name: &str, bytes: &[u8]) -> bool {
    match files.get(name) {
        Some(found) => found == bytes,
        None => false,
    }
}

/// Appends which files were written: `out`, and of those that were there before `page` and `other`.
fn put_written(found: &mut Found, files: &MemoryFiles) {
    if files.get("out").is_some() {
        found.text("page");
    }
    if !holds(files, "page", PAGE) {
        found.text("page replaced");
    }
    if !holds(files, "other", OTHER) {
        found.text("other lost");
    }
}

/// Appends what a run over the bytes under `in` gave: its status, the lines of its report, and which files were written.
fn put_run(
    alloc: Global,
    found: &mut Found,
    line: &str,
    bytes: &[u8],
    calls: (u32, u32),
) -> Result<(), OutOfMemory> {
    let words = words_of(alloc, line)?;
    let mut files = MemoryFiles::new(alloc);
    files.add("in", bytes)?;
    files.add("other", OTHER)?;
    files.add("page", PAGE)?;
    files.fail(calls.0)?;
    let mut report = MemorySink::new(alloc);
    report.fail(calls.1)?;
    found.number(usize::from(run(alloc, &words, &mut files, &mut report)));
    found.text("|");
    put_lines(found, report.bytes());
    put_written(found, &files);
    Ok(())
}

/// What a run over the bytes under `in` amounts to. The call of the files and the call of the report of these numbers fail,
/// if they are not 0.
pub fn run_found(alloc: Global, line: &str, bytes: &[u8], calls: (u32, u32)) -> Found {
    let mut found = Found::new(alloc);
    if put_run(alloc, &mut found, line, bytes, calls).is_err() {
        found.text("no memory");
    }
    found
}

/// Whether a text is somewhere in a page.
fn has_text(page: &[u8], text: &[u8]) -> bool {
    let mut rest = page;
    'bytes: while !rest.is_empty() {
        if rest.starts_with(text) {
            return true;
        }
        rest = rest.split_at(1).1;
    }
    text.is_empty()
}

/// The text up to the first `|`, and what follows it.
fn first_text(texts: &[u8]) -> (&[u8], &[u8])
    ensures { 0 < length texts.now → length result.1.now < length texts.now }
{
    match texts.iter().position(|byte| *byte == b'|') {
        Some(place) => {
            let (first, rest) = texts.split_at(place);
            (first, rest.split_at(1).1)
        }
        None => (texts, b""),
    }
}

/// Appends the texts that a page doesn't have.
fn put_unshown(found: &mut Found, page: &[u8], texts: &[u8]) {
    let mut rest = texts;
    'texts: while !rest.is_empty() {
        let (text, behind) = first_text(rest);
        if !has_text(page, text) {
            found.put(text);
            found.text("|");
        }
        rest = behind;
    }
}

/// Makes the page of the bytes under `in`, and appends the texts that it doesn't have.
fn put_page(
    alloc: Global,
    found: &mut Found,
    line: &str,
    bytes: &[u8],
    texts: &[u8],
) -> Result<(), OutOfMemory> {
    let words = words_of(alloc, line)?;
    let mut files = MemoryFiles::new(alloc);
    files.add("in", bytes)?;
    let mut report = MemorySink::new(alloc);
    run(alloc, &words, &mut files, &mut report);
    match files.get("out") {
        Some(page) => put_unshown(found, page, texts),
        None => found.text("no page"),
    }
    Ok(())
}

/// Which of the texts, with `|` between them, the page of the bytes under `in` doesn't have.
pub fn unshown(alloc: Global, line: &str, bytes: &[u8], texts: &[u8]) -> Found {
    let mut found = Found::new(alloc);
    if put_page(alloc, &mut found, line, bytes, texts).is_err() {
        found.text("no memory");
    }
    found
}
