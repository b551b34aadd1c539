//! What is listed.

use abel_tree::Names;
use pld_device::{Device, Loaded};

/// A device and its fuses, and the names of the source that they were made of.
#[derive(Drop)]
pub struct Burned<'a, D: Device> {
    pub device: &'a Loaded<D>,
    pub fuses: &'a [bool],
    pub names: &'a Names,
}
