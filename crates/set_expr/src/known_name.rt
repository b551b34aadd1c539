//! What is known of a name.

use crate::checked::Checked;

/// What is known of a name: its number in the order of declaration, what the check of its declaration finds, and
/// whether it represents `.C.` or `.Z.`.
#[derive(Clone, Copy, PartialEq, Eq)]
pub struct KnownName {
    pub number: usize,
    pub checked: Checked,
    pub pulse: bool,
}
