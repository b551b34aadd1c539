//! The commands: the words that name them, the bytes of their sources, and how each ends with these.
#![tactic(auto)]

mod check_command;
pub mod checked_line;
mod command;
mod compare_command;
mod compared_line;
mod decompile_command;
mod demo;
mod demo_line;
mod digits;
pub mod ending;
mod fault_line;
mod laws;
mod leading_digits;
mod numbered;
pub mod run_lines;
pub mod sim_fault_line;
mod simulate_command;
mod source_commands;
mod sources;
mod taken;

pub use check_command::check_ending;
pub use command::{Command, Task, command_of};
pub use compare_command::compare_ending;
pub use decompile_command::decompile_ending;
pub use demo::demo_ending;
pub use laws::read_files_have_few_vectors;
pub use numbered::put_numbered;
pub use simulate_command::simulate_ending;
pub use source_commands::{compile_ending, list_ending, refused_ending};
pub use sources::{LIMIT, SourceFault, read_sources, source_at};
pub use taken::{Taken, take_file};
