//! Laws of fitted fuses, as the contracts of calls that do nothing.

ghost use Rattle.netlist_laws.specs.FileLaws.{FittedHasNoLoop, FittedHasNoResetPath, FittedIsIntact};

/// With the fuses of a sound netlist no cell of a device waits for itself. Does nothing.
pub fn fitted_has_no_loop()
    ensures { FittedHasNoLoop }
{}

/// With the fuses of a sound netlist no reset of a device reads a register. Does nothing.
pub fn fitted_has_no_reset_path()
    ensures { FittedHasNoResetPath }
{}

/// The fuses of a netlist that no line of the canonical file may name are 0. Does nothing.
pub fn fitted_is_intact()
    ensures { FittedIsIntact }
{}
