//! The law of the fuses of a module, as the contract of a call that does nothing.

ghost use Rattle.abel_compile.specs.Compiling.{FitsAreRight};

use device_sim::vectors_disagree_alike;
use netlist_laws::{
    fitted_controls_are_own, fitted_has_no_loop, fitted_has_no_reset_path, fitted_rows_are_prime,
    fitted_spares_are_unused, through_a_netlist,
};

/// The fuses of a module's netlist are those of the module. Does nothing.
pub(crate) fn fits_are_right()
    ensures { FitsAreRight }
{
    through_a_netlist();
    fitted_has_no_loop();
    fitted_has_no_reset_path();
    fitted_rows_are_prime();
    fitted_spares_are_unused();
    fitted_controls_are_own();
    vectors_disagree_alike();
}
