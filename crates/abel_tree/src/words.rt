//! The smallest parts of the tree: words, numbers, names and signs.

ghost use Rattle.std.specs.Prelude.{◌≡◌};
ghost use Rattle.abel_tree.specs.Extensions.{innermost, is_data, is_raw};

use pld_base::{NameText, Place};

/// The text and the place of a token. A string's text keeps its quotes.
#[derive(Drop)]
pub struct Word {
    pub text: NameText,
    pub place: Place,
}

/// A number with its place.
#[derive(Clone, Copy, PartialEq, Eq)]
pub struct Number {
    pub value: u32,
    pub place: Place,
}

/// A name of a declaration, or a range of names from `first` up or down to `last`; `negated` if a `!`
/// precedes it.
#[derive(Drop)]
pub struct Item {
    pub negated: bool,
    pub first: Word,
    pub last: Option<Word>,
}

/// A number of a declaration, or all numbers from `first` up or down to `last`.
#[derive(Clone, Copy, PartialEq, Eq)]
pub struct Span {
    pub first: Number,
    pub last: Option<Number>,
}

/// `@DCSET` (`on`) or `@ONSET`.
#[derive(Clone, Copy, PartialEq, Eq)]
pub struct DontCare {
    pub on: bool,
    pub place: Place,
}

/// What a name or a set is asked for after its dot, as in `q.CLK`.
#[derive(Clone, Copy, PartialEq, Eq)]
pub enum Extension {
    Clk,
    Oe,
    Ar,
    Sp,
    D,
    Q,
    Fb,
    Pin,
}

impl Extension {
    /// Whether a target with this extension is data: the name itself, or the raw input of its register.
    pub fn is_data(extension: Option<Extension>) -> bool
        ensures { result ≡ is_data extension }
    {
        matches!(extension, None | Some(Extension::D))
    }

    /// Whether it is the raw input of a register.
    pub fn is_raw(extension: Option<Extension>) -> bool
        ensures { result ≡ is_raw extension }
    {
        matches!(extension, Some(Extension::D))
    }

    /// The extension that counts of two, the first of which is inside.
    pub fn innermost(own: Option<Extension>, outer: Option<Extension>) -> Option<Extension>
        ensures { result ≡ innermost own outer }
    {
        match own {
            Some(extension) => Some(extension),
            None => outer,
        }
    }
}

/// The sign of an assignment: `=`, `:=`, `?=`, `?:=`.
#[derive(Clone, Copy, PartialEq, Eq)]
pub enum Sign {
    Equal,
    Clocked,
    Any,
    ClockedAny,
}

/// `!` and the `-` before an operand.
#[derive(Clone, Copy, PartialEq, Eq)]
pub enum Unary {
    Not,
    Minus,
}

/// `== != < <= > >=`, `+ - # $ !$`, `& << >> * / %`, in this order.
#[derive(Clone, Copy, PartialEq, Eq)]
pub enum Binary {
    Equal,
    Unequal,
    Less,
    LessEqual,
    Greater,
    GreaterEqual,
    Plus,
    Minus,
    Or,
    Xor,
    Xnor,
    And,
    ShiftLeft,
    ShiftRight,
    Times,
    Over,
    Rest,
}
