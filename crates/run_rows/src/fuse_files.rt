//! Fuse files that are checked and simulated.

use crate::runs::ending_found;
use crate::texts::lines_of;
use std::alloc::{AllocError, Global};
use test_rows::{Report, Section, unescaped};

/// Each row below the command and the front of its file is what follows it, with escapes, the status and the report.
pub fn try_fuse_files(
    alloc: Global,
    section: &Section<'_>,
    report: &mut Report<'_>,
) -> Result<(), AllocError> {
    let blocks = section.blocks(alloc)?;
    let [first, rows] = blocks.as_slice() else {
        report.unread(0);
        return Ok(());
    };
    let first = lines_of(alloc, first)?;
    let Some((command, front)) = first.as_str().split_once('\n') else {
        report.unread(0);
        return Ok(());
    };
    for row in rows {
        let Some((back, told)) = row.text.split_once('|') else {
            report.unread(row.number);
            continue;
        };
        let text = format!(in alloc; "{front}{back}")?;
        match unescaped(alloc, text.as_str()) {
            Some(file) => {
                let found = ending_found(alloc, command, ("in", &file));
                report.row(row.number, told.as_bytes(), &found)
            }
            None => report.unread(row.number),
        }
    }
    Ok(())
}
