//! What equations contribute to the signals of a source, and what is refused of them.
#![tactic(auto)]

mod assigning;
mod choices;
mod conditions;
mod values;
mod walking;

pub use choices::{BothGuards, Chosen, Condition, then_guard, walk_condition};
pub use conditions::{check_condition, refuse_value};
pub use values::{Meets, unit_bits, value_bits};
pub use walking::walk_statements;
