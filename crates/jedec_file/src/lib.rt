//! The form of a fuse file: its fields, its sums, and why bytes aren't one.
#![tactic(auto)]

mod field;
mod jedec_fault;
mod sums;

pub use field::Field;
pub use jedec_fault::JedecFault;
pub use sums::{byte_sum, fuse_sum};
