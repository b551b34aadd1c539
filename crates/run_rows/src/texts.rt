//! Texts of rows.

use std::alloc::{AllocError, Global};
use test_rows::{Found, Row, unescaped};

/// The lines of a block, each with its end.
pub fn lines_of(alloc: Global, rows: &[Row<'_>]) -> Result<String, AllocError> {
    let mut text = String::new(alloc);
    for row in rows {
        text.push_str(row.text)?;
        text.push('\n')?;
    }
    Ok(text)
}

/// The beginning of a block.
pub fn number_of(rows: &[Row<'_>]) -> usize {
    match rows.first() {
        Some(row) => row.number,
        None => 0,
    }
}

/// The bytes of the lines of a block, without the last one's end.
pub fn bytes_of(alloc: Global, rows: &[Row<'_>]) -> Result<Option<Vec<u8>>, AllocError> {
    let text = lines_of(alloc, rows)?;
    match text.strip_suffix('\n') {
        Some(lines) => Ok(unescaped(alloc, lines)),
        None => Ok(None),
    }
}

/// Appends a text of lines, with `|` between them.
pub fn put_lines(found: &mut Found, text: &[u8]) {
    let Some(lines) = text.strip_suffix(b"\n") else {
        found.put(text);
        if !text.is_empty() {
            found.text(" without a line's end");
        }
        return;
    };
    for byte in lines {
        if *byte == b'\n' {
            found.text("|")
        } else {
            found.put(&[*byte])
        }
    }
}
