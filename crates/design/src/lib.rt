//! From a checked design to its netlist, and what holds of it.
#![tactic(auto)]

mod chains;
mod laws;
mod netlist;

pub use design_checks::DesignFault;
pub use laws::{
    assigned_are_given, assigned_have_cells, names_are_accepted, sound_modules_are_accepted,
    targets_name_alike, unrefused_is_takeable,
};
pub use netlist::gather;
