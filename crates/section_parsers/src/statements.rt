//! Statements from tokens.

ghost use Rattle.std.specs.Prelude.{◌≡◌, ℕ, map, option_map, [], ◌∷◌, None};
ghost use Rattle.section_parsers.specs.Prelude.{read_optional, ◌then_read◌, read_unless, AWhen, otherwise_of, view, view_stmt, Gives, among, read_one, read_expr, is_open, read_when, read_stmts, read_group, read_stmt, read_plain_stmt};

use crate::assignments::{assign, dont_care_stmt};
use abel_grammar::{Halt, Terminal, expect, starts};
use abel_lexer::Token;
use abel_tree::{Expr, Stmt, When};
use expr_parser::{expr, maybe, packed};
use pld_base::{Boxed, Place};
use std::alloc::Global;

const ASSIGN_STARTS: [Terminal; 3] = [Terminal::Not, Terminal::Identifier, Terminal::Left];

const PLAIN_STARTS: [Terminal; 5] = [
    Terminal::Not,
    Terminal::Identifier,
    Terminal::Left,
    Terminal::DontCare,
    Terminal::When,
];

const STMT_STARTS: [Terminal; 6] = [
    Terminal::Not,
    Terminal::Identifier,
    Terminal::Left,
    Terminal::DontCare,
    Terminal::When,
    Terminal::BraceOpen,
];

/// Whether an ELSE after the statement would belong to a WHEN in it.
fn is_open(stmt: &Stmt) -> bool
    ensures { result ≡ is_open (view_stmt stmt.now) }
{
    match stmt {
        Stmt::When(when) => match &when.otherwise {
            None => true,
            Some(other) => is_open(when.then.get()) || is_open(other.get()),
        },
        _ => false,
    }
}

/// An ELSE and its statement, unless there isn't one or the WHEN before it is not done.
#[cycle(stmt)]
fn else_part<'a>(
    alloc: Global,
    unfinished: bool,
    tokens: &'a [Token],
    depth: u8,
) -> Result<(Option<(&'a Token, Stmt)>, &'a [Token]), Halt<'a>>
    ensures { Gives (λ x. (option_map (λ e. (e.0.now, view_stmt e.1)) x.0, x.1.now)) result
        (read_unless unfinished None (read_optional (among (Terminal.Else ∷ []))
        (read_one Terminal.Else then_read read_stmt depth)) tokens.now) }
{
    if unfinished || !starts(tokens, &[Terminal::Else]) {
        return Ok((None, tokens));
    }
    let (word, rest) = expect(tokens, &[Terminal::Else])?;
    let (other, rest) = statement(alloc, rest, depth)?;
    Ok((Some((word, other)), rest))
}

/// A WHEN of its parts.
fn make_when(
    place: Place,
    condition: Expr,
    then: Boxed<Stmt>,
    otherwise: Option<Boxed<Stmt>>,
) -> Stmt
    ensures { view_stmt result ≡ AWhen place (view condition) (view_stmt then)
        (otherwise_of (option_map view_stmt otherwise)) }
{
    Stmt::When(When {
        place,
        condition,
        then,
        otherwise,
    })
}

/// WHEN, its statement, and its ELSE.
#[cycle(stmt)]
#[tactic(auto, unfolding(abel_grammar::specs::StatementReaders::read_when))]
fn when<'a>(alloc: Global, tokens: &'a [Token], depth: u8) -> Result<(Stmt, &'a [Token]), Halt<'a>>
    ensures { Gives (λ x. (view_stmt x.0, x.1.now)) result
        (read_when (read_expr depth) (read_stmt depth) tokens.now) }
{
    let (word, rest) = expect(tokens, &[Terminal::When])?;
    let place = word.place;
    let (condition, rest) = expr(alloc, rest, depth)?;
    let (_then, rest) = expect(rest, &[Terminal::Then])?;
    let (first, rest) = statement(alloc, rest, depth)?;
    let unfinished = is_open(&first);
    let (other, rest) = else_part(alloc, unfinished, rest, depth)?;
    match other {
        None => {
            let then = Boxed::new(alloc, first)?;
            Ok((make_when(place, condition, then, None), rest))
        }
        Some((_else, second)) => {
            let then = Boxed::new(alloc, first)?;
            let other = Boxed::new(alloc, second)?;
            Ok((make_when(place, condition, then, Some(other)), rest))
        }
    }
}

/// As many statements as are there.
#[cycle(stmt)]
pub fn stmts<'a>(
    alloc: Global,
    tokens: &'a [Token],
    depth: u8,
) -> Result<(Vec<Stmt>, &'a [Token]), Halt<'a>>
    ensures { Gives (λ x. (map view_stmt x.0.items, x.1.now)) result
        (read_stmts (read_stmt depth) tokens.now) }
{
    let mut list = Vec::new(alloc);
    let mut rest = tokens;
    'list: while starts(rest, &STMT_STARTS) {
        let (next, after) = statement(alloc, rest, depth)?;
        list.push(next)?;
        rest = after;
    }
    Ok((list, rest))
}

/// Statements in braces.
#[cycle(stmt)]
#[tactic(auto, unfolding(abel_grammar::specs::StatementReaders::read_group))]
fn group<'a>(alloc: Global, tokens: &'a [Token], depth: u8) -> Result<(Stmt, &'a [Token]), Halt<'a>>
    ensures { Gives (λ x. (view_stmt x.0, x.1.now)) result
        (read_group (read_stmt depth) tokens.now) }
{
    let (_open, rest) = expect(tokens, &[Terminal::BraceOpen])?;
    let (list, rest) = stmts(alloc, rest, depth)?;
    let (_close, rest) = expect(rest, &[Terminal::BraceClose])?;
    let (_end, rest) = maybe(rest, Terminal::Semicolon);
    Ok((Stmt::Group(packed(list)), rest))
}

/// A statement that is no group, if no nesting may be opened.
#[tactic(auto, unfolding(abel_grammar::specs::StatementReaders::read_plain_stmt))]
fn flat_plain<'a>(alloc: Global, tokens: &'a [Token]) -> Result<(Stmt, &'a [Token]), Halt<'a>>
    ensures { Gives (λ x. (view_stmt x.0, x.1.now)) result (read_plain_stmt 0 tokens.now) }
{
    if starts(tokens, &ASSIGN_STARTS) {
        assign(alloc, tokens, 0)
    } else if starts(tokens, &[Terminal::DontCare]) {
        dont_care_stmt(tokens)
    } else if starts(tokens, &[Terminal::When]) {
        Err(Halt::TooDeep(tokens))
    } else {
        Err(Halt::Syntax(tokens))
    }
}

/// A statement that is no group.
#[cycle(stmt)]
#[tactic(auto, unfolding(abel_grammar::specs::StatementReaders::read_plain_stmt))]
pub fn plain<'a>(
    alloc: Global,
    tokens: &'a [Token],
    depth: u8,
) -> Result<(Stmt, &'a [Token]), Halt<'a>>
    ensures { Gives (λ x. (view_stmt x.0, x.1.now)) result (read_plain_stmt depth tokens.now) }
{
    if depth == 0 {
        return flat_plain(alloc, tokens);
    }
    if starts(tokens, &ASSIGN_STARTS) {
        assign(alloc, tokens, depth)
    } else if starts(tokens, &[Terminal::DontCare]) {
        dont_care_stmt(tokens)
    } else {
        when(alloc, tokens, depth - 1)
    }
}

/// A statement, if no nesting may be opened.
#[tactic(auto, unfolding(abel_grammar::specs::StatementReaders::read_stmt, abel_grammar::specs::StatementReaders::read_plain_stmt))]
fn flat_stmt<'a>(alloc: Global, tokens: &'a [Token]) -> Result<(Stmt, &'a [Token]), Halt<'a>>
    ensures { Gives (λ x. (view_stmt x.0, x.1.now)) result (read_stmt 0 tokens.now) }
{
    if starts(tokens, &PLAIN_STARTS) {
        flat_plain(alloc, tokens)
    } else if starts(tokens, &[Terminal::BraceOpen]) {
        Err(Halt::TooDeep(tokens))
    } else {
        Err(Halt::Syntax(tokens))
    }
}

/// A statement.
#[cycle(stmt)]
#[tactic(auto, unfolding(abel_grammar::specs::StatementReaders::read_stmt, abel_grammar::specs::StatementReaders::read_plain_stmt))]
fn statement<'a>(
    alloc: Global,
    tokens: &'a [Token],
    depth: u8,
) -> Result<(Stmt, &'a [Token]), Halt<'a>>
    ensures { Gives (λ x. (view_stmt x.0, x.1.now)) result (read_stmt depth tokens.now) }
{
    if depth == 0 {
        return flat_stmt(alloc, tokens);
    }
    if starts(tokens, &PLAIN_STARTS) {
        plain(alloc, tokens, depth)
    } else {
        group(alloc, tokens, depth - 1)
    }
}
