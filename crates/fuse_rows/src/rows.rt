//! The rows: words, what is reported of their run, and the files that they name.

use crate::runs::runs_found;
use crate::texts::{lines_of, number_of};
use std::alloc::{AllocError, Global};
use test_rows::{Report, Section, unescaped};

/// The words of a block, what is reported of their run, and the bytes under `in` and `second`. With escapes.
fn parts(text: &str) -> Option<(&str, &str, &str, &str)> {
    let (words, rest) = text.split_once('|')?;
    let (told, files) = rest.split_once('\n')?;
    let (input, second) = files.split_once("----\n").unwrap_or((files, ""));
    Some((words, told, input, second))
}

/// The bytes of a file in a row, whose lines end where an escape says so.
fn bytes_of(alloc: Global, text: &str) -> Option<Vec<u8>> {
    let mut joined = String::new(alloc);
    for line in text.lines() {
        joined.push_str(line).ok()?;
    }
    unescaped(alloc, joined.as_str())
}

/// Tries a block. False for one that can't be read.
fn is_run_tried(alloc: Global, text: &str, number: usize, report: &mut Report<'_>) -> bool {
    let Some((words, told, input, second)) = parts(text) else {
        return false;
    };
    let (Some(told), Some(input), Some(second)) = (
        unescaped(alloc, told),
        bytes_of(alloc, input),
        bytes_of(alloc, second),
    ) else {
        return false;
    };
    report.row(number, &told, &runs_found(alloc, words, &input, &second));
    true
}

/// Tries the blocks of a section. Each is the words, the status, the lines of the report, and `out` with what is under `out` if
/// it was written, each line with its end as `|`; and below what is under `in`, and after `----` what is under `second`. Of several
/// runs, parted by `;`, each has its status and its report, and `out` isn't shown: a later run looks into it.
pub fn try_section(
    alloc: Global,
    section: &Section<'_>,
    report: &mut Report<'_>,
) -> Result<(), AllocError> {
    for block in &section.blocks(alloc)? {
        let text = lines_of(alloc, block)?;
        if !is_run_tried(alloc, text.as_str(), number_of(block), report) {
            report.unread(number_of(block))
        }
    }
    Ok(())
}
