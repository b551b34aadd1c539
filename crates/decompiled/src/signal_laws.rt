//! What the netlist of a decompiled source is, as the contract of a call that does nothing.

ghost use Rattle.decompiled.specs.Netlists.{NetlistsAreOfFuses};

/// The netlist of a decompiled source asks of each cell what its lines say. Does nothing.
pub fn netlists()
    ensures { NetlistsAreOfFuses }
{}
