//! A control fuse.

/// A fuse by its number from 0, and the level that has the meaning.
#[derive(Clone, Copy, PartialEq, Eq, Default)]
pub struct FuseBit {
    pub fuse: u16,
    pub level: bool,
}
