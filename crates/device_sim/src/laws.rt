//! What joins the run of vectors to sources, as the contract of a call that does nothing.

ghost use Rattle.device_sim.specs.Compared.{VectorsDisagreeAlike};

/// Vectors disagree alike with a device and with the source that it does the same as. Does nothing.
pub fn vectors_disagree_alike()
    ensures { VectorsDisagreeAlike }
{}
