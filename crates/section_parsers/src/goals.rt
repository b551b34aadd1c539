//! Goals of transitions from tokens.

ghost use Rattle.std.specs.Prelude.{◌≡◌, ℕ, map, option_map, [], ◌∷◌};
ghost use Rattle.section_parsers.specs.Prelude.{view, view_stmt, view_arm, Gives, read_braced, read_listed, read_with_part, read_goal, read_goal_arm, read_goto};

use crate::statements::{plain, stmts};
use abel_grammar::{Halt, Terminal, expect, starts};
use abel_lexer::Token;
use abel_tree::{Arm, Goal, Stmt};
use expr_parser::{expr, maybe};
use pld_base::ListOf;
use std::alloc::Global;

const PLAIN_STARTS: [Terminal; 5] = [
    Terminal::Not,
    Terminal::Identifier,
    Terminal::Left,
    Terminal::DontCare,
    Terminal::When,
];

/// Statements in braces, and an ENDWITH.
#[tactic(auto, unfolding(abel_grammar::specs::DiagramReaders::read_braced))]
fn braced<'a>(
    alloc: Global,
    tokens: &'a [Token],
    depth: u8,
) -> Result<(Vec<Stmt>, &'a [Token]), Halt<'a>>
    ensures { Gives (λ x. (map view_stmt x.0.items, x.1.now)) result
        (read_braced depth tokens.now) }
{
    if depth == 0 {
        return if starts(tokens, &[Terminal::BraceOpen]) {
            Err(Halt::TooDeep(tokens))
        } else {
            Err(Halt::Syntax(tokens))
        };
    }
    let (_open, rest) = expect(tokens, &[Terminal::BraceOpen])?;
    let (list, rest) = stmts(alloc, rest, depth - 1)?;
    let (_close, rest) = expect(rest, &[Terminal::BraceClose])?;
    let (_end, rest) = maybe(rest, Terminal::Endwith);
    Ok((list, rest))
}

/// Statements up to ENDWITH, the first of which is no group.
#[tactic(auto, unfolding(abel_grammar::specs::DiagramReaders::read_listed))]
fn listed<'a>(
    alloc: Global,
    tokens: &'a [Token],
    depth: u8,
) -> Result<(Vec<Stmt>, &'a [Token]), Halt<'a>>
    ensures { Gives (λ x. (map view_stmt x.0.items, x.1.now)) result
        (read_listed depth tokens.now) }
{
    if starts(tokens, &PLAIN_STARTS) {
        let (first, rest) = plain(alloc, tokens, depth)?;
        let (mut list, rest) = stmts(alloc, rest, depth)?;
        let (_end, rest) = expect(rest, &[Terminal::Endwith])?;
        list.insert(0, first)?;
        return Ok((list, rest));
    }
    let (_end, rest) = expect(tokens, &[Terminal::Endwith])?;
    Ok((Vec::new(alloc), rest))
}

/// WITH and its statements.
#[tactic(auto, unfolding(abel_grammar::specs::DiagramReaders::read_with_part))]
fn with_part<'a>(
    alloc: Global,
    tokens: &'a [Token],
    depth: u8,
) -> Result<(Vec<Stmt>, &'a [Token]), Halt<'a>>
    ensures { Gives (λ x. (map view_stmt x.0.items, x.1.now)) result
        (read_with_part depth tokens.now) }
{
    if depth == 0 {
        return if starts(tokens, &[Terminal::With]) {
            Err(Halt::TooDeep(tokens))
        } else {
            Err(Halt::Syntax(tokens))
        };
    }
    let (_with, rest) = expect(tokens, &[Terminal::With])?;
    if starts(rest, &[Terminal::BraceOpen]) {
        braced(alloc, rest, depth - 1)
    } else {
        listed(alloc, rest, depth - 1)
    }
}

/// An expression and its WITH.
#[tactic(auto, unfolding(abel_grammar::specs::DiagramReaders::read_goal))]
fn goal<'a>(alloc: Global, tokens: &'a [Token], depth: u8) -> Result<(Arm, &'a [Token]), Halt<'a>>
    ensures { Gives (λ x. (view_arm x.0, x.1.now)) result (read_goal depth tokens.now) }
{
    match tokens {
        [] => Err(Halt::Syntax(tokens)),
        [first, ..] => {
            let (value, rest) = expr(alloc, tokens, depth)?;
            if starts(rest, &[Terminal::With]) {
                let (list, rest) = with_part(alloc, rest, depth)?;
                Ok((
                    Arm::Goal(Goal {
                        place: first.place,
                        value,
                        with: Some(ListOf::from_vec(list)),
                    }),
                    rest,
                ))
            } else {
                Ok((
                    Arm::Goal(Goal {
                        place: first.place,
                        value,
                        with: None,
                    }),
                    rest,
                ))
            }
        }
    }
}

/// `[GOTO] goal [;]`
#[tactic(auto, unfolding(abel_grammar::specs::DiagramReaders::read_goal_arm))]
pub fn goal_arm<'a>(
    alloc: Global,
    tokens: &'a [Token],
    depth: u8,
) -> Result<((Arm, Option<&'a Token>), &'a [Token]), Halt<'a>>
    ensures { Gives (λ x. ((view_arm x.0.0, option_map (λ t. t.now) x.0.1), x.1.now)) result
        (read_goal_arm depth tokens.now) }
{
    let (_goto, rest) = maybe(tokens, Terminal::Goto);
    let (arm, rest) = goal(alloc, rest, depth)?;
    let (end, rest) = maybe(rest, Terminal::Semicolon);
    Ok(((arm, end), rest))
}

/// `GOTO goal [;]`
#[tactic(auto, unfolding(abel_grammar::specs::DiagramReaders::read_goto))]
pub fn goto_goal<'a>(
    alloc: Global,
    tokens: &'a [Token],
    depth: u8,
) -> Result<((Arm, Option<&'a Token>), &'a [Token]), Halt<'a>>
    ensures { Gives (λ x. ((view_arm x.0.0, option_map (λ t. t.now) x.0.1), x.1.now)) result
        (read_goto depth tokens.now) }
{
    let (_goto, rest) = expect(tokens, &[Terminal::Goto])?;
    let (arm, rest) = goal(alloc, rest, depth)?;
    let (end, rest) = maybe(rest, Terminal::Semicolon);
    Ok(((arm, end), rest))
}
