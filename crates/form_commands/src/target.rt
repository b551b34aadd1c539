//! Where a command puts its file.

/// The name of OUT.
#[derive(Clone, Copy)]
pub struct Target<'a> {
    pub name: &'a str,
}
