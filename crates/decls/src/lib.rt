//! The names that the declarations of a source make, and what is refused of them.
#![tactic(auto)]

mod behind;
mod buffers;
mod checks;
mod constant_values;
mod constants;
mod declaring;
mod device;
mod entering;
mod fault;
mod items;
mod laws;
mod numbers;
mod pass;
mod reading;
mod requiring;
mod said;
mod saying;
mod spans;
mod strings;
mod table;
mod uses;
mod walk;

pub use buffers::always_inverts;
pub use device::device_of;
pub use fault::{NameFault, first_of};
pub use items::{Given, given_in};
pub use laws::names_are_refused_alike;
pub use reading::{Buffered, NamesRead, read_names};
