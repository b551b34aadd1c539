//! What a cell may be.

/// Combinational, registered, or either by a control fuse.
#[derive(Clone, Copy, PartialEq, Eq)]
pub enum Kinds {
    Combinational,
    Registered,
    Either,
}
