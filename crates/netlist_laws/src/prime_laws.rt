//! Laws of the rows of cells, as the contracts of calls that do nothing.

ghost use Rattle.netlist_laws.specs.PrimeCorrect.{FittedControlsAreOwn, FittedRowsArePrime, FittedSparesAreUnused};
ghost use Rattle.netlist_laws.specs.PrimeExample.{ExampleHasPrimeRows};

use crate::fitted_laws::example_fits;

/// Where fuses are those of a module's netlist, the rows of each assigned cell are prime and irredundant for what the
/// module allows. Does nothing.
pub fn fitted_rows_are_prime()
    ensures { FittedRowsArePrime }
{}

/// The cells that a module assigns nothing are not used in the fuses of its netlist. Does nothing.
pub fn fitted_spares_are_unused()
    ensures { FittedSparesAreUnused }
{}

/// In the fuses of a module's netlist the rows of the controls are those of the module's own, all 0 if these are. Does
/// nothing.
pub fn fitted_controls_are_own()
    ensures { FittedControlsAreOwn }
{}

/// There are such fuses: those of the example. Does nothing.
pub fn example_rows_are_prime()
    ensures { ExampleHasPrimeRows }
{
    example_fits();
}
