//! Rows that serve one purpose.

/// Rows of the array that are side by side: a cell's data rows, or a row alone.
#[derive(Clone, Copy)]
pub struct Group {
    pub first: u16,
    pub room: u8,
}
