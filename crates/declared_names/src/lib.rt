//! The names that a source declares, and what each represents.
#![tactic(auto)]

mod attributes;
mod declaring;
mod following;
mod held;
mod kinds;
mod marks;
mod numbered;
mod numbers;
mod parts;
mod reads;
mod registers;

pub use declaring::declare;
pub use kinds::settle;
pub use numbered::{are_numbered, is_unnumbered, numbered_names};
