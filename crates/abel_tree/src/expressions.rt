//! Expressions and the members of sets.

use crate::words::{Binary, Extension, Number, Unary, Word};
use pld_base::{Boxed, ListOf, Place};

/// A member of a set: an expression, or the names from `first` up or down to `last`.
#[cycle(expr)]
#[derive(Drop)]
pub enum Member {
    One(Expr),
    Span { first: Word, last: Word },
}

/// An expression. The place of an operator is that of its sign, every other place that of the first token.
#[cycle(expr)]
pub enum Expr {
    Number(Number),
    /// `.X.`, `.C.` or `.Z.`; the letter is upper-case.
    Special {
        letter: u8,
        place: Place,
    },
    Name {
        word: Word,
        extension: Option<Extension>,
    },
    Set {
        place: Place,
        members: ListOf<Member>,
        extension: Option<Extension>,
    },
    Paren {
        place: Place,
        inner: Boxed<Expr>,
    },
    Unary {
        sign: Unary,
        place: Place,
        inner: Boxed<Expr>,
    },
    Binary {
        sign: Binary,
        place: Place,
        left: Boxed<Expr>,
        right: Boxed<Expr>,
    },
}

// An operator's left side may lie as many levels deep as the source has operators, so that it is let go
// in a loop; whatever else lies inside is at most as deep as the nestings.
impl Drop for Expr {
    #[cycle(expr)]
    fn drop(mut self) {
        loop {
            match self {
                Expr::Number(_) => return,
                Expr::Special {
                    letter: _,
                    place: _,
                } => return,
                Expr::Name {
                    word: _,
                    extension: _,
                } => return,
                Expr::Set {
                    place: _,
                    members,
                    extension: _,
                } => {
                    drop(members);
                    return;
                }
                Expr::Paren { place: _, inner } => self = inner.into_inner(),
                Expr::Unary {
                    sign: _,
                    place: _,
                    inner,
                } => self = inner.into_inner(),
                Expr::Binary {
                    sign: _,
                    place: _,
                    left,
                    right,
                } => {
                    drop(right);
                    self = left.into_inner();
                }
            }
        }
    }
}
