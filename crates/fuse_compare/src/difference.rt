//! A point at which two logics differ.

/// A state at which two logics differ: outside levels, bit p for pin p; and stored Qs, bit c for cell c.
///
/// At rest there they show different pins, Qs or enabled cells, or else, where `clocked` is true, they
/// have different Qs after the clock's rising edge from there.
#[derive(Clone, Copy, Debug, PartialEq, Eq)]
pub struct Difference {
    pub outside: u32,
    pub stored: u32,
    pub clocked: bool,
}
