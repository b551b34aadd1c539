//! How `read` and `write` of `abel-fuses` end: dumps as fuse files, and fuse files in the forms that programmers want.
#![tactic(auto)]

mod dump;
mod dump_lines;
mod form_lines;
mod longer;
mod reading;
mod taking;
mod target;
mod wanted;
mod writing;

pub use dump::{Dump, Way};
pub use reading::read_ending;
pub use wanted::Wanted;
pub use writing::write_ending;
