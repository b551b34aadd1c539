//! A law of refusals, as the contract of a call that does nothing.

ghost use Rattle.decls.specs.Alike.{NamesAreRefusedAlike};

/// Devices that take names alike refuse the same of each module. Does nothing.
pub fn names_are_refused_alike()
    ensures { NamesAreRefusedAlike }
{}
