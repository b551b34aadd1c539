//! What the text of a pin source is read as, as the contract of a call that does nothing.

ghost use Rattle.decompiled.specs.Reading.{SourceTextsAreRead};

/// The text of a source is read as its module. Does nothing.
pub fn source_texts_are_read()
    ensures { SourceTextsAreRead }
{}
