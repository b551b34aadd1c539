//! What written products represent, as the contract of a call that does nothing.

ghost use Rattle.sop_lowering.specs.Values.{WrittenValues};

/// If the nodes are valued, the OR of a formula's written products has its value. Does nothing.
pub fn written_values()
    ensures { WrittenValues }
{}
