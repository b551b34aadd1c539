//! The grammar of sources, over forms that know no tokens; its readers, their laws, and the order of places.
#![tactic(auto)]

mod halt;
mod terminal;
mod words;

pub use halt::Halt;
pub use terminal::{Terminal, behind, is_among, starts, terminal_of};
pub use words::expect;
