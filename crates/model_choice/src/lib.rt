//! The model of a device that a module asks for.
#![tactic(auto)]

mod cells;
mod choosing;
mod outputs;
mod reads;

pub use choosing::wanted_model;
