//! What `abel-fuses` does with its words: its commands on fuse files, and the top call `run`.
#![tactic(auto)]

mod command;
mod execute;
mod form_words;
mod running;
mod sources;
mod usage;

pub use command::{Command, Task, command_of};
pub use running::run;
