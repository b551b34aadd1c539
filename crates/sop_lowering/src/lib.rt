//! The written products of a bit in a polarity.
#![tactic(auto)]

mod fault;
mod inserting;
mod kept;
mod laws;
mod lowering;
mod uses;
mod walking;

pub use fault::LowerFault;
pub use inserting::{product_list, sum_list};
pub use laws::written_values;
pub use walking::lower;
