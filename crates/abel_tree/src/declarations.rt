//! Declarations.

use crate::expressions::Expr;
use crate::words::{DontCare, Item, Span, Word};
use pld_base::ListOf;

/// A declaration. A constant declaration of a source has as many values as names.
#[derive(Drop)]
pub enum Decl {
    Device {
        name: Word,
        text: Word,
    },
    Pins {
        names: ListOf<Item>,
        numbers: ListOf<Span>,
        attributes: ListOf<Word>,
    },
    Nodes {
        names: ListOf<Item>,
        numbers: ListOf<Span>,
        attributes: ListOf<Word>,
    },
    /// `names ISTYPE string {, string} ;`
    Attributes {
        names: ListOf<Item>,
        attributes: ListOf<Word>,
    },
    Constants {
        names: ListOf<Word>,
        values: ListOf<Expr>,
    },
    /// FLAG or OPTIONS and its strings.
    Options(ListOf<Word>),
    DontCare(DontCare),
}
