//! The phases of compiling a source, each with what it is refused for and the report on that.
#![tactic(auto)]

mod fault;
mod laws;
mod modelling;
mod phases;
mod refusing;

pub use fault::{CompileFault, SourceFault};
pub use laws::{fits_can_be_told, read_names_are_plain};
pub use modelling::{Modelled, modelled_of};
pub use phases::{
    declared_of, device_named, fitted_of, module_of, names_of, netlist_of, parts_of, placed_of,
    scope_of, sections_of,
};
