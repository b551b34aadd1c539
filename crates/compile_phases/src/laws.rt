//! Laws of the phases of compiling, as the contracts of calls that do nothing.

ghost use Rattle.compile_phases.specs.Phases.{FitsCanBeTold, ReadNamesArePlain, SectionsAreAccepted};

use design::{names_are_accepted, sound_modules_are_accepted};
use module_reader::module_names_are_plain;
use netlist_laws::fitted_is_intact;
use reports::summary_counts_the_design;

/// The name of a module that is read can be in a fuse file. Does nothing.
pub fn read_names_are_plain()
    ensures { ReadNamesArePlain }
{
    module_names_are_plain();
}

/// A module whose names and sections are accepted has an accepted design. Does nothing.
pub fn sections_are_accepted()
    ensures { SectionsAreAccepted }
{
    names_are_accepted();
    sound_modules_are_accepted();
}

/// A fuse file can say the fuses of a module's netlist, and the netlist has as many cells as the design. Does nothing.
pub fn fits_can_be_told()
    ensures { FitsCanBeTold }
{
    fitted_is_intact();
    summary_counts_the_design();
}
