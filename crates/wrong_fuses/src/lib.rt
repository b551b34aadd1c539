//! What the test vectors of a fuse file say of each single wrong fuse.
#![tactic(auto)]

mod faults;
mod flipping;
mod judging;
mod running;
mod same_table;
mod verdict;

pub use faults::is_fault;
pub use flipping::with_wrong;
pub use judging::judge;
pub use verdict::{Grade, Judged, Verdict};
