//! What is contributed to each signal as its functions, and how signals read each other.
#![tactic(auto)]

mod asked;
mod chains;
mod given;
mod graph;
mod link;
mod links;
mod names;
mod netlist;
mod pairs;
mod parts;
mod reads;
mod signal;
mod signal_loops;
mod sums;

pub use chains::{first_loop, path_to_register, read_order};
pub use link::Link;
pub use netlist::{Gathered, gather_up};
pub use reads::{both, control_reads, function_reads, nothing};
pub use signal::{Controls, Totals, sum_up};
pub use signal_loops::{reset_path, signal_loop};
