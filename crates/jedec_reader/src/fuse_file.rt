//! What a fuse file says.

use pld_base::{ListOf, Vector};
use pld_device::Fuses;

/// What a fuse file says of a device: the levels of all its fuses, the first of which `listed` are
/// the file's (its `QF` field) and the others 0; its test vectors in rising order of their numbers;
/// and the level of pins that a vector does not drive (its `X` field, 0 without one).
#[derive(Drop)]
pub struct FuseFile {
    pub fuses: Fuses,
    pub listed: u16,
    pub vectors: ListOf<Vector>,
    pub default_level: bool,
}
