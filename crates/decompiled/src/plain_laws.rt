//! What a plain text expands to, and its tokens, as the contract of a call that does nothing.

ghost use Rattle.decompiled.specs.Plain.{PlainTextsExpandToThemselves, PlainTextsHaveTheirTokens};

/// A plain text expands to itself, and its tokens are those of its pieces. Does nothing.
pub fn plain_texts_expand()
    ensures expand { PlainTextsExpandToThemselves }
    ensures tokens { PlainTextsHaveTheirTokens }
{}
