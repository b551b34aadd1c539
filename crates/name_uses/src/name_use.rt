//! A name that an expression uses.

use abel_tree::{Extension, Word};

/// A name that an expression uses, or the names of a range.
#[derive(Clone, Copy)]
pub struct NameUse<'a> {
    /// The name, or the first name of the range.
    pub first: &'a Word,
    /// The last name of the range, which goes up or down to it.
    pub last: Option<&'a Word>,
    /// Its own extension, or else that of the nearest set around it that has one.
    pub extension: Option<Extension>,
}
