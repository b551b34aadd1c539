//! The commands of `abel-fuses` on files of two devices that have the same array: how `port` and `compare` end.
#![tactic(auto)]

mod compare_command;
mod differ_line;
mod pair_lines;
mod port_command;

pub use compare_command::compare_ending;
pub use port_command::port_ending;
