//! What the test vectors of a fuse file gave.

use pld_base::ListOf;

/// A tested character with which a pin disagrees: the vector, counted from 1 in the order of the
/// vectors' numbers, the pin, the character (`H`, `L` or `Z`), and what is found there (`H` driven
/// with 1, `L` driven with 0, `Z` released).
#[derive(Clone, Copy, PartialEq, Eq)]
pub struct Mismatch {
    pub vector: u32,
    pub pin: u8,
    pub expects: u8,
    pub finds: u8,
}

/// How many vectors ran, and the disagreements in order of vectors and then pins.
#[derive(Drop)]
pub struct Report {
    pub vectors: u32,
    pub list: ListOf<Mismatch>,
}
