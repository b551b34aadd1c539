//! The operators that signs are.

ghost use Rattle.std.specs.Prelude.{◌≡◌, IfOk};
ghost use Rattle.abel_tree.specs.Tree.{ABinary};
ghost use Rattle.abel_tree.specs.View.{view};
ghost use Rattle.abel_grammar.specs.Expressions.{binary_of, unary_of};

use abel_grammar::Terminal;
use abel_tree::{Binary, Expr, Unary};
use pld_base::{Boxed, OutOfMemory, Place};
use std::alloc::Global;

/// The operator that a terminal is.
pub fn binary_of(sign: Terminal) -> Binary
    ensures { result ≡ binary_of sign }
{
    match sign {
        Terminal::IsEqual => Binary::Equal,
        Terminal::Unequal => Binary::Unequal,
        Terminal::Less => Binary::Less,
        Terminal::LessEqual => Binary::LessEqual,
        Terminal::Greater => Binary::Greater,
        Terminal::GreaterEqual => Binary::GreaterEqual,
        Terminal::Plus => Binary::Plus,
        Terminal::Minus => Binary::Minus,
        Terminal::Or => Binary::Or,
        Terminal::Xor => Binary::Xor,
        Terminal::Xnor => Binary::Xnor,
        Terminal::ShiftLeft => Binary::ShiftLeft,
        Terminal::ShiftRight => Binary::ShiftRight,
        Terminal::Times => Binary::Times,
        Terminal::Over => Binary::Over,
        Terminal::Rest => Binary::Rest,
        _ => Binary::And,
    }
}

/// The sign that a terminal is.
pub fn unary_of(sign: Terminal) -> Unary
    ensures { result ≡ unary_of sign }
{
    match sign {
        Terminal::Minus => Unary::Minus,
        _ => Unary::Not,
    }
}

/// Two operands joined.
pub fn join(
    alloc: Global,
    sign: Binary,
    place: Place,
    left: Expr,
    right: Expr,
) -> Result<Expr, OutOfMemory>
    ensures { IfOk result (λ e. view e ≡ ABinary sign place (view left) (view right)) }
{
    let left = Boxed::new(alloc, left)?;
    let right = Boxed::new(alloc, right)?;
    Ok(Expr::Binary {
        sign,
        place,
        left,
        right,
    })
}
