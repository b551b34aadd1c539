//! What compiling answers.

use pld_base::Model;

/// A fuse file, with the device that it is for and that device's mode, and what is reported of it: the listing of its fuses as
/// equations, and a line that sums it up.
#[derive(Drop)]
pub struct Compiled {
    pub device: Model,
    pub file: Vec<u8>,
    pub listing: Vec<u8>,
    pub summary: Vec<u8>,
}
