//! Truth tables: entries of rows, what is refused, and what the rows contribute.
#![tactic(auto)]

mod checked_rows;
mod entries;
mod giving;
mod headings;
mod inputs;
mod inside;
mod mark;
mod part;
mod parts;
mod rows;
mod tables;
mod wholes;

pub use entries::{Entry, read_entry};
pub use giving::{Assigning, Matching, give_no_matches, give_output};
pub use mark::Mark;
pub use parts::header_signals;
pub use tables::walk_table;
