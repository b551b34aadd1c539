//! What `write` writes.

use fuse_forms::Form;

/// A form, the text of the signature if one is given, and whether reading the chip is to be forbidden.
#[derive(Clone, Copy)]
pub struct Wanted<'a> {
    pub form: Form,
    pub signature: Option<&'a str>,
    pub secured: bool,
}
