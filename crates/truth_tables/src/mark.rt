//! What an entry says of a position of its header.

/// A level, `.X.`, `.C.` or `.Z.`.
#[derive(Clone, Copy, PartialEq, Eq)]
pub enum Mark {
    Level(bool),
    Unknown,
    Pulsed,
    Released,
}
