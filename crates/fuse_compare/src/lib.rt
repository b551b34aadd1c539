//! Whether two fuse lists of one device behave alike, and if they differ.
#![tactic(auto)]

mod agreeing;
mod choosing;
mod comparing;
mod cut;
mod difference;
mod group;
mod group_covers;
mod knowing;
mod laws;
mod masked;
mod own_rows;
mod reads;
mod searching;
mod state;
mod variable;

pub use comparing::compare;
pub use difference::Difference;
pub use laws::alike;
