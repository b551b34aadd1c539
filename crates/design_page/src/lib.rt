//! The page of a design: its drawings in one file of HTML, and what is said of it.
#![tactic(auto)]

mod assigned_twice;
mod costly;
mod costs;
mod drawn;
mod failures;
mod frame;
mod head;
mod lines;
mod listed_warnings;
mod made;
mod of_file;
mod of_source;
mod outcome;
mod pin_names;
mod pin_warnings;
mod placed;
mod places;
mod plus_signs;
mod refused;
mod running;
mod source;
mod style;
mod telling;
mod told_places;
mod unfit;
mod usage;
mod vector_lines;
mod verdict;
mod warned;
mod writing;

pub use costs::{CostlyPolarity, costly_polarities};
pub use made::{Input, Made};
pub use of_file::page_of_file;
pub use of_source::page_of_source;
pub use running::run;
