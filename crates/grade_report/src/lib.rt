//! The report on what the vectors of a fuse file say of its wrong fuses.
#![tactic(auto)]

mod counts;
mod grading;
mod head;
mod judged_lines;
mod mismatch_lines;
mod reporting;

pub use grading::grade_ending;
pub use reporting::{grade_report, grade_status};
