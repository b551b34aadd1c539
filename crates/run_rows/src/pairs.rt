//! Pairs of fuse files that are compared.

use crate::each_device::file_of;
use crate::runs::run_over;
use crate::texts::{number_of, put_lines};
use std::alloc::{AllocError, Global};
use test_rows::{Found, Report, Section};

/// The status and the report of a command over two fuse files.
fn pair_found(
    alloc: Global,
    command: &str,
    first: &Found,
    second: &Found,
) -> Result<Found, AllocError> {
    let line = format!(in alloc; "{command} a b")?;
    let files = [("a", first.bytes()), ("b", second.bytes())];
    let mut found = Found::new(alloc);
    match run_over(alloc, line.as_str(), &files, (0, 0)) {
        Ok(done) => {
            found.number(usize::from(done.status));
            found.text(" ");
            put_lines(&mut found, done.report.bytes())
        }
        Err(_) => found.text("no memory"),
    }
    Ok(found)
}

/// Each block is what it shows, a command, the rows of the first file, what follows them, the same of the second file, and
/// the status with the report.
pub fn try_pairs(
    alloc: Global,
    section: &Section<'_>,
    report: &mut Report<'_>,
) -> Result<(), AllocError> {
    for block in &section.blocks(alloc)? {
        match block.as_slice() {
            [what, command, rows, rest, others, further, told] => {
                let first = file_of(alloc, command.text, rows.text, rest.text);
                let second = file_of(alloc, command.text, others.text, further.text);
                let found = pair_found(alloc, command.text, &first, &second)?;
                report.row(what.number, told.text.as_bytes(), &found)
            }
            _ => report.unread(number_of(block)),
        }
    }
    Ok(())
}
