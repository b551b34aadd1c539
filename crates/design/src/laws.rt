//! Laws of designs, as the contracts of calls that do nothing.

ghost use Rattle.design.specs.{UnrefusedIsTakeable, TargetsNameAlike, AssignedAreGiven, AssignedHaveCells, SoundModulesAreAccepted, NamesAreAccepted};

use design_checks::uses_have_columns;

/// The names that are declared of a module are accepted as those of its design. Does nothing.
#[tactic(auto, using(crate::proofs::SoundModules::names_accepted))]
pub fn names_are_accepted()
    ensures { NamesAreAccepted }
{}

/// The signals that a target names by its names alone are those of its term that have no extension. Does nothing.
#[tactic(auto, using(crate::proofs::NamedTerms::same_signals))]
pub fn targets_name_alike()
    ensures { TargetsNameAlike }
{}

/// What a module assigns is a signal, and some contribution of the module is data to it, for every module and whatever
/// is refused of it. Does nothing.
pub fn assigned_are_given()
    ensures { AssignedAreGiven }
{}

/// If nothing is refused of the sections, each pin that is assigned is that of a cell. Does nothing.
#[tactic(auto, using(crate::proofs::SoundModules::on_cells))]
pub fn assigned_have_cells()
    ensures { AssignedHaveCells }
{}

/// A module is accepted for a device if nothing is refused of its sections, and its declarations are sound: no two names
/// are one pin, nodes are few, and no register follows Q, or may, if the device can't complement after it. Does nothing.
#[tactic(auto, using(crate::proofs::SoundModules::all_accepted))]
pub fn sound_modules_are_accepted()
    ensures { SoundModulesAreAccepted }
{}

/// If nothing is refused of a design whose names and sections are accepted, the device can take its netlist. Does
/// nothing.
#[tactic(auto, using(crate::proofs::Takes::takes))]
pub fn unrefused_is_takeable()
    ensures { UnrefusedIsTakeable }
{
    uses_have_columns();
}
