//! A token of a source.

use pld_base::{NameText, Place};

/// What a token is (ABEL-HDL Reference Manual, language elements).
#[derive(Clone, Copy, PartialEq, Eq)]
pub enum TokenKind {
    /// A name: a letter, `_` or `~`, then letters, digits, `_` and `~`.
    Identifier,
    /// A word of the language, without regard to case.
    Keyword,
    /// A number in the radix in force, or in that of its mark, as `^h1F`.
    Number,
    /// A special constant, such as `.X.`.
    Special,
    /// A dot extension, such as `.OE`.
    Extension,
    /// A text between quotes.
    Text,
    /// A sign or an operator.
    Sign,
    /// `@DCSET` or `@ONSET`.
    Directive,
}

/// A token with its slice of the text, its place and, if it is a number, its value (else 0).
#[derive(Drop)]
pub struct Token {
    pub kind: TokenKind,
    pub text: NameText,
    pub place: Place,
    pub value: u32,
}
