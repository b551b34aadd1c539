//! Expressions as short texts.

use abel_tree::{Binary, Expr, Extension, Member, Unary, Word};
use test_rows::Found;

/// The text of a word.
pub fn put_word(found: &mut Found, word: &Word) {
    found.put(word.text.bytes());
}

/// A number in decimal.
pub fn put_number(found: &mut Found, number: u32) {
    found.number(number as usize)
}

/// An extension with its dot, if there is one.
fn put_extension(found: &mut Found, extension: Option<Extension>) {
    found.text(match extension {
        None => "",
        Some(Extension::Clk) => ".CLK",
        Some(Extension::Oe) => ".OE",
        Some(Extension::Ar) => ".AR",
        Some(Extension::Sp) => ".SP",
        Some(Extension::D) => ".D",
        Some(Extension::Q) => ".Q",
        Some(Extension::Fb) => ".FB",
        Some(Extension::Pin) => ".PIN",
    })
}

/// The sign of an operator.
fn put_operator(found: &mut Found, sign: Binary) {
    found.text(match sign {
        Binary::Equal => "==",
        Binary::Unequal => "!=",
        Binary::Less => "<",
        Binary::LessEqual => "<=",
        Binary::Greater => ">",
        Binary::GreaterEqual => ">=",
        Binary::Plus => "+",
        Binary::Minus => "-",
        Binary::Or => "#",
        Binary::Xor => "$",
        Binary::Xnor => "!$",
        Binary::And => "&",
        Binary::ShiftLeft => "<<",
        Binary::ShiftRight => ">>",
        Binary::Times => "*",
        Binary::Over => "/",
        Binary::Rest => "%",
    })
}

/// A member of a set.
#[cycle(outline)]
fn put_member(found: &mut Found, member: &Member) {
    match member {
        Member::One(expr) => put_expr(found, expr),
        Member::Span { first, last } => {
            put_word(found, first);
            found.text("..");
            put_word(found, last)
        }
    }
}

/// An expression: an operator and its sides are in braces.
#[cycle(outline)]
pub fn put_expr(found: &mut Found, expr: &Expr) {
    match expr {
        Expr::Number(number) => put_number(found, number.value),
        Expr::Special { letter, .. } => {
            found.text(".");
            found.put(&[*letter]);
            found.text(".")
        }
        Expr::Name { word, extension } => {
            put_word(found, word);
            put_extension(found, *extension)
        }
        Expr::Set {
            members,
            extension,
            ..
        } => {
            found.text("[");
            for member in members.as_slice() {
                put_member(found, member);
                found.text(" ");
            }
            found.text("]");
            put_extension(found, *extension)
        }
        Expr::Paren { inner, .. } => {
            found.text("(");
            put_expr(found, inner.get());
            found.text(")")
        }
        Expr::Unary { sign, inner, .. } => {
            found.text(if *sign == Unary::Not { "!" } else { "-" });
            put_expr(found, inner.get())
        }
        Expr::Binary {
            sign,
            left,
            right,
            ..
        } => {
            found.text("{");
            put_expr(found, left.get());
            put_operator(found, *sign);
            put_expr(found, right.get());
            found.text("}")
        }
    }
}
