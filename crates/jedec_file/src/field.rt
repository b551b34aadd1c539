//! The fields of a fuse file.

use pld_base::ListOf;

/// What a field of a fuse file says (JESD3-C, the fields of its letter).
#[derive(Drop)]
pub enum Field {
    /// `QF`: the number of fuses.
    FuseCount(u16),
    /// `QP`: the number of pins.
    PinCount(u16),
    /// `F`: the level of the fuses that are in no list.
    DefaultFuse(bool),
    /// `L`: a first fuse, and the levels from it on.
    Levels(u16, ListOf<bool>),
    /// `C`: the fuse sum.
    FuseSum(u16),
    /// `X`: the level of the pins that a test vector does not drive.
    DefaultTest(bool),
    /// `P`: the pin of each place of a test vector.
    PinOrder(ListOf<u8>),
    /// `V`: a test vector's number, and its characters place by place.
    Vector(u16, ListOf<u8>),
    /// A field that says nothing of fuses and tests, as a note.
    Passed,
}
