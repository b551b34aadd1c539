//! Bytes of a source or of a file's name as they are shown to a reader.
#![tactic(auto)]

mod excerpt;
mod printing;

pub use excerpt::{Excerpt, excerpt_of};
pub use printing::printable;
