//! What distinguishes the states of a search.

/// A pin's outside level, or a cell's stored Q.
#[derive(Clone, Copy, Debug, PartialEq, Eq)]
pub enum Variable {
    Pin(u8),
    Q(u8),
}
