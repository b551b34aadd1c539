//! The test vectors of a source: one section of them, and all.
#![tactic(auto)]

mod chars;
mod finding;
mod given;
mod headers;
mod joining;
mod pins;
mod rows;
mod sections;

pub use headers::read_side;
pub use joining::{SourceSections, all_sections};
pub use sections::vectors;
