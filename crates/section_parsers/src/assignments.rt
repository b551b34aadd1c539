//! Assignments from tokens.

ghost use Rattle.std.specs.Prelude.{◌≡◌, ℕ, [], ◌∷◌};
ghost use Rattle.section_parsers.specs.Prelude.{view, view_stmt, Gives, sign_of_terminal, read_bare_target, read_complemented_at, read_target, read_assign, read_dont_care_stmt};

use abel_grammar::{Halt, Terminal, expect, starts, terminal_of};
use abel_lexer::Token;
use abel_tree::{Assign, Expr, Sign, Stmt};
use expr_parser::{dont_care, expr, name_tree, set_at};
use std::alloc::Global;

const ASSIGNS: [Terminal; 4] = [
    Terminal::Equal,
    Terminal::Clocked,
    Terminal::Any,
    Terminal::ClockedAny,
];

/// The sign of an assignment.
fn sign_of(terminal: Terminal) -> Sign
    ensures { result ≡ sign_of_terminal terminal }
{
    match terminal {
        Terminal::Clocked => Sign::Clocked,
        Terminal::Any => Sign::Any,
        Terminal::ClockedAny => Sign::ClockedAny,
        _ => Sign::Equal,
    }
}

/// A name or a set.
#[tactic(auto, unfolding(abel_grammar::specs::StatementReaders::read_bare_target))]
fn bare_target<'a>(
    alloc: Global,
    tokens: &'a [Token],
    depth: u8,
) -> Result<(Expr, &'a [Token]), Halt<'a>>
    ensures { Gives (λ x. (view x.0, x.1.now)) result (read_bare_target depth tokens.now) }
{
    if starts(tokens, &[Terminal::Identifier]) {
        name_tree(alloc, tokens)
    } else {
        set_at(alloc, tokens, depth)
    }
}

/// A `!` and a target, if the `!` may open a nesting.
#[tactic(auto, unfolding(abel_grammar::specs::StatementReaders::read_complemented_at))]
fn complemented<'a>(
    alloc: Global,
    tokens: &'a [Token],
    depth: u8,
) -> Result<((bool, Expr), &'a [Token]), Halt<'a>>
    ensures { Gives (λ x. ((x.0.0, view x.0.1), x.1.now)) result
        (read_complemented_at depth tokens.now) }
{
    if depth == 0 {
        return if starts(tokens, &[Terminal::Not]) {
            Err(Halt::TooDeep(tokens))
        } else {
            Err(Halt::Syntax(tokens))
        };
    }
    let (_not, rest) = expect(tokens, &[Terminal::Not])?;
    let (target, rest) = bare_target(alloc, rest, depth - 1)?;
    Ok(((true, target), rest))
}

/// A target, and whether a `!` precedes it.
#[tactic(auto, unfolding(abel_grammar::specs::StatementReaders::read_target))]
fn target<'a>(
    alloc: Global,
    tokens: &'a [Token],
    depth: u8,
) -> Result<((bool, Expr), &'a [Token]), Halt<'a>>
    ensures { Gives (λ x. ((x.0.0, view x.0.1), x.1.now)) result (read_target depth tokens.now) }
{
    if starts(tokens, &[Terminal::Not]) {
        complemented(alloc, tokens, depth)
    } else {
        let (target, rest) = bare_target(alloc, tokens, depth)?;
        Ok(((false, target), rest))
    }
}

/// An assignment.
#[tactic(auto, unfolding(abel_grammar::specs::StatementReaders::read_assign))]
pub fn assign<'a>(
    alloc: Global,
    tokens: &'a [Token],
    depth: u8,
) -> Result<(Stmt, &'a [Token]), Halt<'a>>
    ensures { Gives (λ x. (view_stmt x.0, x.1.now)) result (read_assign depth tokens.now) }
{
    match tokens {
        [] => Err(Halt::Syntax(tokens)),
        [first, ..] => {
            let ((complement, target), rest) = target(alloc, tokens, depth)?;
            let (sign, rest) = expect(rest, &ASSIGNS)?;
            let (value, rest) = expr(alloc, rest, depth)?;
            let (_end, rest) = expect(rest, &[Terminal::Semicolon])?;
            Ok((
                Stmt::Assign(Assign {
                    place: first.place,
                    complement,
                    target,
                    sign: sign_of(terminal_of(sign)),
                    sign_place: sign.place,
                    value,
                }),
                rest,
            ))
        }
    }
}

/// `@DCSET` or `@ONSET`.
#[tactic(auto, unfolding(abel_grammar::specs::StatementReaders::read_dont_care_stmt))]
pub fn dont_care_stmt<'a>(tokens: &'a [Token]) -> Result<(Stmt, &'a [Token]), Halt<'a>>
    ensures { Gives (λ x. (view_stmt x.0, x.1.now)) result (read_dont_care_stmt tokens.now) }
{
    let (dc, rest) = dont_care(tokens)?;
    Ok((Stmt::DontCare(dc), rest))
}
