//! That the source of a device's fuses is right, as the contract of a call that does nothing.

ghost use Rattle.decompiler.specs.Right.{SourcesAreRight};

use design::unrefused_is_takeable;

/// The source of a device's fuses is compiled as it is, and says what the fuses do. Does nothing.
pub fn sources_are_right()
    ensures { SourcesAreRight }
{
    unrefused_is_takeable();
}
