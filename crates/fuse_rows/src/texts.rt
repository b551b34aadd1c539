//! Texts of rows.

use std::alloc::{AllocError, Global};
use test_rows::{Found, Row};

/// The lines of a block, each with its end.
pub fn lines_of(alloc: Global, rows: &[Row<'_>]) -> Result<String, AllocError> {
    let mut text = String::new(alloc);
    for row in rows {
        text.push_str(row.text)?;
        text.push('\n')?;
    }
    Ok(text)
}

/// The beginning of a block.
pub fn number_of(rows: &[Row<'_>]) -> usize {
    match rows.first() {
        Some(row) => row.number,
        None => 0,
    }
}

/// Appends a text of lines, with `|` after each.
pub fn put_lines(found: &mut Found, text: &[u8]) {
    for byte in text {
        if *byte == b'\n' {
            found.text("|")
        } else {
            found.put(&[*byte])
        }
    }
}
