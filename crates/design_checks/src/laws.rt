//! Laws of uses, as the contracts of calls that do nothing.

ghost use Rattle.design_checks.specs.{ExampleIsRefused, UsesAreRead, UsesHaveColumns};

/// The uses of an expression, each at its place, are what its term reads. Does nothing.
#[tactic(auto, using(crate::proofs::UsesRead::uses_read))]
pub fn uses_are_read()
    ensures { UsesAreRead }
{}

/// A use that isn't refused reads what some pair of columns carries. Does nothing.
#[tactic(auto, using(crate::proofs::Carried::uses_have_columns))]
pub fn uses_have_columns()
    ensures { UsesHaveColumns }
{}

/// The uses of the example that are refused are those worked by hand. Does nothing.
pub fn example_is_refused()
    ensures { ExampleIsRefused }
{}
