//! Sections of rows of a text, escapes in them, and a report of what was found.
#![tactic(auto)]

mod escapes;
mod found;
mod reading;
mod report;

pub use escapes::unescaped;
pub use found::Found;
pub use reading::{Row, Section, halves, sections};
pub use report::Report;
