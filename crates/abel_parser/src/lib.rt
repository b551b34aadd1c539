//! The one tree that the tokens of a source spell, or the exact place at which they stop to begin
//! one.
#![tactic(auto)]

mod fault;
mod parsing;

pub use fault::ParseFault;
pub use parsing::parse;
