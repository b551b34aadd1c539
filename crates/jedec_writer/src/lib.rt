//! The canonical fuse file of a device.
#![tactic(auto)]

mod array;
mod control;
mod lines;
mod sums;
mod vectors;
mod writing;

pub use sums::fuse_sum;
pub use writing::write;
