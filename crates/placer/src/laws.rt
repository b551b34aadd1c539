//! Laws of fitting pins, as the contracts of calls that do nothing.

ghost use Rattle.placer.specs.Following.{AssignedPinsFit, FittingHaveKinds, FittingHavePaths, PlacedAreFollowed, PlacedNamesAreNumbered, UsesAreReads};

/// Each pin of an assignment is free and fits; on a pin that fits it a signal meets neither WrongKind nor, by its bare
/// name, NoReadPath. Does nothing.
pub fn fitting_pins_are_followed()
    ensures pins { AssignedPinsFit }
    ensures kinds { FittingHaveKinds }
    ensures paths { FittingHavePaths }
{}

/// What a device must follow of a design is read. Does nothing.
pub fn uses_are_reads()
    ensures { UsesAreReads }
{}

/// Of a placed module's names nothing is refused, each of its pins has a number, and each signal that was placed meets
/// neither WrongKind nor, by its bare name, NoReadPath. Does nothing.
pub fn placed_names_are_numbered()
    ensures names { PlacedNamesAreNumbered }
    ensures followed { PlacedAreFollowed }
{}
