//! A netlist with any as 0 as a logic that settles and steps: what a source does, without fuses.
#![tactic(auto)]

mod cells;
mod choices;
mod controls;
mod laws;
mod links;
mod logic;
mod values;

pub use laws::any_as_0;
pub use logic::SourceLogic;
