//! How a command on fuse files ends, and what is reported of bytes that aren't one.
#![tactic(auto)]

mod ending;
mod file_line;
mod numbered;
mod refusals;
mod sim_faults;
mod taken;
mod telling;

pub use ending::{Ending, Outcome, Output, line, status, text};
pub use file_line::checked_line;
pub use numbered::put_numbered;
pub use refusals::{fault_line, wrong_mode_line};
pub use sim_faults::{put_sim_fault, sim_fault_line};
pub use taken::{Taken, take_file};
pub use telling::{report_memory, tell};
