//! Running the test vectors of a fuse file.
#![tactic(auto)]

mod chars;
mod laws;
mod outside;
mod report;
mod running;
mod showing;
mod simulating;
mod testing;

pub use device_logic::{DeviceLogic, SimFault, load};
pub use laws::vectors_disagree_alike;
pub use report::{Mismatch, Report};
pub use showing::traces;
pub use simulating::simulate;
