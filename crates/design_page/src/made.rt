//! A page, with what is reported of it.

use pld_base::OutOfMemory;
use std::alloc::Global;

/// A file that a page is made of: its name as it is shown, and its bytes.
#[derive(Clone, Copy)]
pub struct Input<'a> {
    pub name: &'a [u8],
    pub bytes: &'a [u8],
}

/// A page with the status and the text of the report. A fuse file that is refused has no page.
#[derive(Drop)]
pub struct Made {
    pub status: u8,
    pub report: Vec<u8>,
    pub page: Option<Vec<u8>>,
}

impl Made {
    /// What is reported if there is no page.
    pub fn told(alloc: Global, status: u8, pieces: &[&[u8]]) -> Result<Made, OutOfMemory> {
        Ok(Made {
            status,
            report: joined(alloc, pieces)?,
            page: None,
        })
    }
}

/// The bytes of a line without the line feed that ends it.
pub fn without_end(line: &[u8]) -> &[u8] {
    match line {
        [front @ .., b'\n'] => front,
        _ => line,
    }
}

/// Pieces, one after the other.
pub fn joined(alloc: Global, pieces: &[&[u8]]) -> Result<Vec<u8>, OutOfMemory> {
    let mut text = Vec::new(alloc);
    for piece in pieces {
        text.extend_from_slice(piece)?;
    }
    Ok(text)
}
