//! A place in a source.

/// A line and a column, both from 1; columns count bytes of the expanded text.
#[derive(Clone, Copy, Debug, PartialEq, Eq)]
pub struct Place {
    pub line: u32,
    pub column: u32,
}
