//! The machine: points at rest, steps and traces of any logic.
#![tactic(auto)]

mod laws;
mod logic;
mod rests;
mod settling;
mod steps;
mod traces;

pub use laws::{exchanged_logics, exchanged_runs, one_run, refined_run, valued_run};
pub use logic::{Logic, Slot};
pub use rests::rest;
pub use steps::step;
pub use traces::trace;
