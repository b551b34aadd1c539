//! Whose rows are, as the contract of a call that does nothing.

ghost use Rattle.fit_plans.specs.Owners.{DevicesHaveOwners};

/// In every device a data row is its cell's, at its place, an enable row its cell's, and the rows that reset and preset
/// are these. Does nothing.
pub fn owners()
    ensures { DevicesHaveOwners }
{}
