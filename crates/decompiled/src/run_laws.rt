//! What a decompiled source is to the fuses, as the contract of a call that does nothing.

ghost use Rattle.decompiled.specs.Runs.{SourcesSayWhatFusesDo};

/// The source of a device's fuses says what the device does. Does nothing.
pub fn runs()
    ensures { SourcesSayWhatFusesDo }
{}
