//! The expanded text of a source, byte by byte.
#![tactic(auto)]

mod expanding;
mod fault;
mod reader;
mod standing;

pub use expanding::expand;
pub use fault::ExpandFault;
pub use reader::Reader;
pub use standing::{Origin, Standing};
