//! What is refused of a design on its device: names, targets, uses and controls.
#![tactic(auto)]

mod by_pin;
mod compared;
mod fault;
mod front;
mod laws;
mod learning;
mod name_facts;
mod names;
mod positions;
mod reads;
mod refused;
mod rule;
mod rules;
mod signals;
mod spelling;
mod uses;
mod written;

pub use fault::DesignFault;
pub use laws::{example_is_refused, uses_are_read, uses_have_columns};
pub use name_facts::{has_wrong_kind_on, is_registered_node, registered_node};
pub use refused::RefusedUse;
pub use rule::{UseRule, has_read_path_on};
pub use rules::{Rule, first_refused};
pub use signals::check_signals;
pub use spelling::other_spelling;
pub use uses::first_use;
