//! What the netlist of a module is, what fuses owe to it and to the module, and the laws between the three.
#![tactic(auto)]

mod exchange_laws;
mod file_laws;
mod fitted_laws;
mod gathered_laws;
mod prime_laws;

pub use exchange_laws::{chosen_netlists, exchanged_netlists};
pub use file_laws::{fitted_has_no_loop, fitted_has_no_reset_path, fitted_is_intact};
pub use fitted_laws::{example_fits, fitted_runs, fitted_values, through_a_netlist};
pub use gathered_laws::{example_is_gathered, netlist_is_sound, netlist_means_the_same};
pub use prime_laws::{
    example_rows_are_prime, fitted_controls_are_own, fitted_rows_are_prime,
    fitted_spares_are_unused,
};
