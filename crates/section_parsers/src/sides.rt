//! What rows and headers share: two expressions with an arrow between them.

ghost use Rattle.section_parsers.specs.Prelude.{read_token, ◌then_read◌, view, Gives, among, read_one, read_expr};
ghost use Rattle.std.specs.Prelude.{◌≡◌, ℕ, [], ◌∷◌};

use abel_grammar::{Halt, Terminal, expect};
use abel_lexer::Token;
use abel_tree::Expr;
use expr_parser::expr;
use std::alloc::Global;

/// What may begin a row.
pub const EXPR_STARTS: [Terminal; 7] = [
    Terminal::Not,
    Terminal::Minus,
    Terminal::Open,
    Terminal::Left,
    Terminal::Identifier,
    Terminal::Number,
    Terminal::Special,
];

/// An expression and what ends a row or a header.
fn last_side<'a>(
    alloc: Global,
    tokens: &'a [Token],
    depth: u8,
    end: Terminal,
) -> Result<((Expr, &'a Token), &'a [Token]), Halt<'a>>
    ensures { Gives (λ x. ((view x.0.0, x.0.1.now), x.1.now)) result
        ((read_expr depth then_read read_one end) tokens.now) }
{
    let (outputs, rest) = expr(alloc, tokens, depth)?;
    let (end, rest) = expect(rest, &[end])?;
    Ok(((outputs, end), rest))
}

/// An arrow, and what follows it up to an end.
fn arrow_side<'a>(
    alloc: Global,
    tokens: &'a [Token],
    depth: u8,
    arrows: &[Terminal],
    end: Terminal,
) -> Result<((&'a Token, (Expr, &'a Token)), &'a [Token]), Halt<'a>>
    ensures { Gives (λ x. ((x.0.0.now, (view x.0.1.0, x.0.1.1.now)), x.1.now)) result
        ((read_token (among arrows.now) then_read read_expr depth then_read read_one end) tokens.now) }
{
    let (arrow, rest) = expect(tokens, arrows)?;
    let (outputs, rest) = last_side(alloc, rest, depth, end)?;
    Ok(((arrow, outputs), rest))
}

/// Two expressions with an arrow between them, and an end.
pub fn sides<'a>(
    alloc: Global,
    tokens: &'a [Token],
    depth: u8,
    arrows: &[Terminal],
    end: Terminal,
) -> Result<((Expr, (&'a Token, (Expr, &'a Token))), &'a [Token]), Halt<'a>>
    ensures { Gives (λ x. ((view x.0.0, (x.0.1.0.now, (view x.0.1.1.0, x.0.1.1.1.now))), x.1.now)) result
        ((read_expr depth then_read read_token (among arrows.now) then_read read_expr depth then_read read_one end)
        tokens.now) }
{
    let (inputs, rest) = expr(alloc, tokens, depth)?;
    let (others, rest) = arrow_side(alloc, rest, depth, arrows, end)?;
    Ok(((inputs, others), rest))
}
