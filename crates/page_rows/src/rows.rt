//! The kinds of rows.

use crate::runs::{run_found, unshown};
use crate::texts::{lines_of, number_of};
use std::alloc::{AllocError, Global};
use test_rows::{Report, Row, Section, unescaped};

/// The words of a block, what is reported of their run, and the bytes under `in`. With escapes.
fn parts(text: &str) -> Option<(&str, &str, &str)> {
    let (words, rest) = text.split_once('|')?;
    let (told, input) = rest.split_once('\n')?;
    Some((words, told, input))
}

/// Tries a block. False for one that can't be read.
fn is_page_tried(alloc: Global, text: &str, number: usize, report: &mut Report<'_>) -> bool {
    let Some((words, told, input)) = parts(text) else {
        return false;
    };
    let (Some(told), Some(input)) = (unescaped(alloc, told), unescaped(alloc, input)) else {
        return false;
    };
    report.row(number, &told, &run_found(alloc, words, &input, (0, 0)));
    true
}

/// Each block is the words, the status and the lines of the report, and `page` if one is written; and below what is under
/// `in`.
pub fn try_pages(
    alloc: Global,
    section: &Section<'_>,
    report: &mut Report<'_>,
) -> Result<(), AllocError> {
    for block in &section.blocks(alloc)? {
        let text = lines_of(alloc, block)?;
        if !is_page_tried(alloc, text.as_str(), number_of(block), report) {
            report.unread(number_of(block))
        }
    }
    Ok(())
}

/// Tries a block of texts that the page has to have. False for one that can't be read.
fn is_shown_tried(alloc: Global, text: &str, number: usize, report: &mut Report<'_>) -> bool {
    let Some((words, wanted, input)) = parts(text) else {
        return false;
    };
    let (Some(wanted), Some(input)) = (unescaped(alloc, wanted), unescaped(alloc, input)) else {
        return false;
    };
    report.row(number, b"", &unshown(alloc, words, &input, &wanted));
    true
}

/// Each block is the words, and after each `|` a text that the page has to have; and below what is under `in`. The texts that it
/// doesn't have are what is found.
pub fn try_shown(
    alloc: Global,
    section: &Section<'_>,
    report: &mut Report<'_>,
) -> Result<(), AllocError> {
    for block in &section.blocks(alloc)? {
        let text = lines_of(alloc, block)?;
        if !is_shown_tried(alloc, text.as_str(), number_of(block), report) {
            report.unread(number_of(block))
        }
    }
    Ok(())
}

/// A row of calls that fail: that of the files, that of the report, the words, and what is reported of their run.
fn call_parts(row: &str) -> Option<((u32, u32), &str, &str)> {
    let (files, rest) = row.split_once('|')?;
    let (sink, rest) = rest.split_once('|')?;
    let (words, told) = rest.split_once('|')?;
    Some(((files.parse().ok()?, sink.parse().ok()?), words, told))
}

/// Tries a row of calls that fail.
fn try_call(alloc: Global, row: &Row<'_>, input: &[u8], report: &mut Report<'_>) {
    match call_parts(row.text) {
        Some((calls, words, told)) => report.row(
            row.number,
            told.as_bytes(),
            &run_found(alloc, words, input, calls),
        ),
        None => report.unread(row.number),
    }
}

/// The first block is under `in`; each row of the second is the call of the files and the call of the report that fail, from
/// 1, or 0 for none; the words; and what is reported of their run, as for pages.
pub fn try_calls(
    alloc: Global,
    section: &Section<'_>,
    report: &mut Report<'_>,
) -> Result<(), AllocError> {
    let blocks = section.blocks(alloc)?;
    let [source, rows] = blocks.as_slice() else {
        report.unread(0);
        return Ok(());
    };
    let source = lines_of(alloc, source)?;
    for row in rows {
        try_call(alloc, row, source.as_bytes(), report)
    }
    Ok(())
}
