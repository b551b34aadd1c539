//! What a user reads of a source: warnings, the lines of refusals, and the line that sums up.
#![tactic(auto)]

mod assignments;
mod counting;
mod designs;
mod firsts;
mod fits;
mod idle_words;
mod laws;
mod lines;
mod placings;
mod summing;
mod sums;
mod telling;
mod told;
mod warning;
mod whole;
mod words;

pub use designs::design_line;
pub use fits::fit_line;
pub use laws::summary_counts_the_design;
pub use lines::{name_line, read_line, section_line};
pub use placings::placing_line;
pub use summing::summary;
pub use telling::{begin_line, put_tail};
pub use warning::{Cause, Warning};
pub use whole::warnings;
pub use words::name_of;
