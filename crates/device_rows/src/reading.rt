//! Fuse files of the sample device are read, or refused.

use crate::asked::{Ask, ask_rows};
use crate::file_texts::{put_fault, put_file};
use crate::sample::sample_device;
use crate::texts::joined;
use jedec_reader::read;
use std::alloc::Global;
use test_rows::{Found, Report, Row, Section, unescaped};

/// Appends what the reader answers on the bytes of a text with escapes.
fn put_read(alloc: Global, text: &str, found: &mut Found) {
    match unescaped(alloc, text) {
        Some(bytes) if bytes.len() <= 1_000_000 => match read(alloc, &sample_device(), &bytes) {
            Ok(file) => put_file(&file, found),
            Err(fault) => put_fault(&fault, found),
        },
        _ => found.text("no bytes"),
    }
}

/// What precedes and after each row's fields in its file.
#[derive(Clone, Copy)]
struct Around {
    front: &'static str,
    back: &'static str,
}

impl Ask for Around {
    fn answer(&mut self, alloc: Global, input: &str, found: &mut Found) {
        let (front, back) = (self.front, self.back);
        match format!(in alloc; "{front}{input}{back}") {
            Ok(text) => put_read(alloc, text.as_str(), found),
            Err(_) => found.text("no memory"),
        }
    }
}

/// A canonical file up to its fuse sum.
#[derive(Drop)]
struct Changed<'a> {
    front: &'a str,
}

impl<'a> Ask for Changed<'a> {
    fn answer(&mut self, alloc: Global, input: &str, found: &mut Found) {
        let (fields, back) = input.split_once('|').unwrap_or((input, ""));
        let front = self.front;
        match format!(in alloc; "{front}{fields}\\r\\n{back}") {
            Ok(text) => put_read(alloc, text.as_str(), found),
            Err(_) => found.text("no memory"),
        }
    }
}

/// Asks rows after the block of lines that is their file's front.
fn ask_changes(alloc: Global, front: &[Row<'_>], rows: &[Row<'_>], report: &mut Report<'_>) {
    match joined(alloc, front) {
        Ok(front) => {
            let mut changed = Changed {
                front: front.as_str(),
            };
            ask_rows(alloc, rows, &mut changed, report);
        }
        Err(_) => report.unread(0),
    }
}

/// Reads a file of several lines, and reports what is found against the row after it.
fn ask_shape(alloc: Global, lines: &[Row<'_>], wanted: &[Row<'_>], report: &mut Report<'_>) {
    let mut found = Found::new(alloc);
    match joined(alloc, lines) {
        Ok(text) => put_read(alloc, text.as_str(), &mut found),
        Err(_) => found.text("no memory"),
    }
    for row in wanted {
        report.row(row.number, row.text.as_bytes(), &found);
    }
}

/// Asks a section of two blocks: a file or its front, and rows.
fn ask_two_blocks(alloc: Global, section: &Section<'_>, report: &mut Report<'_>) {
    let Ok(blocks) = section.blocks(alloc) else {
        return report.unread(0);
    };
    if let [lines, rows] = blocks.as_slice() {
        if section.name == "changes of a canonical file" {
            ask_changes(alloc, lines.as_slice(), rows.as_slice(), report);
        } else {
            ask_shape(alloc, lines.as_slice(), rows.as_slice(), report);
        }
    }
}

/// What surrounds the rows of a section.
fn around_of(name: &str) -> Option<Around> {
    if name == "fields that are accepted" || name == "fields that are refused" {
        Some(Around {
            front: "\\x02d*",
            back: "\\x030000",
        })
    } else if name == "whole files" || name == "files of a smaller number of fuses" {
        Some(Around {
            front: "",
            back: "",
        })
    } else {
        None
    }
}

/// Reads what a section's name says.
pub fn ask_reading(alloc: Global, section: &Section<'_>, report: &mut Report<'_>) -> bool {
    let name = section.name;
    if let Some(mut around) = around_of(name) {
        ask_rows(alloc, section.rows.as_slice(), &mut around, report);
        return true;
    }
    if name == "changes of a canonical file" || name == "a file in the shape of another tool" {
        ask_two_blocks(alloc, section, report);
        return true;
    }
    false
}
