//! What `abel` does with its words: the top call `run`.
#![tactic(auto)]

mod execute;
mod running;
mod starting;

pub use running::run;
pub use starting::{Given, start};
