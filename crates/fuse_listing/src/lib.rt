//! The equations of a device's fuses in the names of a source.
#![tactic(auto)]

mod burned;
mod cells;
mod columns;
mod given;
mod lookups;
mod pin_names;
mod rows;
mod whole;

pub use burned::Burned;
pub use cells::count_in_use;
pub use columns::{complements_output, pin_of, put_column, says, stores};
pub use lookups::{carry_at, cell_of};
pub use pin_names::{name_on, names_complement, put_name};
pub use rows::{is_in_use, is_opened, put_row};
pub use whole::listing;
