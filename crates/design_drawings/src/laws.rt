//! What a reader gets back, as the contract of a call that does nothing.

ghost use Rattle.design_drawings.specs.Unescaped.{EscapedTextsReadBack};

/// Escaped bytes have no markup of their own, and read as just those bytes. Does nothing.
pub fn escaped_texts_read_back()
    ensures { EscapedTextsReadBack }
{}
