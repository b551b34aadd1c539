//! Transitions from tokens.

ghost use Rattle.std.specs.Prelude.{◌≡◌, ℕ, map, option_map, [], ◌∷◌, None};
ghost use Rattle.section_parsers.specs.Prelude.{read_optional, ◌then_read◌, read_unless, AnIf, ACase, other_of, choices_of, view, view_arm, view_choice, Gives, among, read_one, read_expr, read_if, read_choice, read_choices, read_case, read_arm, read_leading, read_trans};
ghost use Rattle.abel_grammar.specs.Diagrams.{is_open_arm, is_closed};

use crate::goals::{goal_arm, goto_goal};
use abel_grammar::{Halt, Terminal, expect, starts};
use abel_lexer::Token;
use abel_tree::{Arm, Case, CaseArm, Expr, If};
use expr_parser::{expr, maybe};
use pld_base::{Boxed, ListOf, Place};
use std::alloc::Global;

const EXPR_STARTS: [Terminal; 7] = [
    Terminal::Not,
    Terminal::Minus,
    Terminal::Open,
    Terminal::Left,
    Terminal::Identifier,
    Terminal::Number,
    Terminal::Special,
];

const GOAL_STARTS: [Terminal; 8] = [
    Terminal::Goto,
    Terminal::Not,
    Terminal::Minus,
    Terminal::Open,
    Terminal::Left,
    Terminal::Identifier,
    Terminal::Number,
    Terminal::Special,
];

/// Whether an ELSE after the arm would belong to an IF in it.
fn is_open(arm: &Arm) -> bool
    ensures { result ≡ is_open_arm (view_arm arm.now) }
{
    match arm {
        Arm::If(branch) => match &branch.otherwise {
            None => true,
            Some(other) => is_open(branch.then.get()) || is_open(other.get()),
        },
        _ => false,
    }
}

/// Whether the transition ends with ENDWITH, ENDCASE or `}`.
fn is_closed(arm: &Arm) -> bool
    ensures { result ≡ is_closed (view_arm arm.now) }
{
    match arm {
        Arm::Goal(goal) => goal.with.is_some(),
        Arm::If(branch) => match &branch.otherwise {
            None => is_closed(branch.then.get()),
            Some(other) => is_closed(other.get()),
        },
        Arm::Case(_) => true,
    }
}

/// An IF of its parts.
fn make_if(place: Place, condition: Expr, then: Boxed<Arm>, otherwise: Option<Boxed<Arm>>) -> Arm
    ensures { view_arm result ≡ AnIf place (view condition) (view_arm then)
        (other_of (option_map view_arm otherwise)) }
{
    Arm::If(If {
        place,
        condition,
        then,
        otherwise,
    })
}

/// A CASE of its parts.
fn make_case(place: Place, arms: Vec<CaseArm>) -> Arm
    ensures { view_arm result ≡ ACase place (choices_of (map view_choice arms.items)) }
{
    Arm::Case(Case {
        place,
        arms: ListOf::from_vec(arms),
    })
}

/// A choice of its parts.
fn make_choice(condition: Expr, colon: Place, branch: Arm) -> CaseArm
    ensures { view_choice result ≡ (view condition, (colon, view_arm branch)) }
{
    CaseArm {
        condition,
        colon,
        result: branch,
    }
}

/// ELSE and its arm, unless there isn't one or the IF before it is not done.
#[cycle(arm)]
fn else_arm<'a>(
    alloc: Global,
    unfinished: bool,
    tokens: &'a [Token],
    depth: u8,
) -> Result<(Option<(&'a Token, (Arm, Option<&'a Token>))>, &'a [Token]), Halt<'a>>
    ensures { Gives (λ x. (
      option_map (λ e. (e.0.now, (view_arm e.1.0, option_map (λ t. t.now) e.1.1)))
          x.0,
      x.1.now,
    )) result
        (read_unless unfinished None (read_optional (among (Terminal.Else ∷ []))
        (read_one Terminal.Else then_read read_arm depth)) tokens.now) }
{
    if unfinished || !starts(tokens, &[Terminal::Else]) {
        return Ok((None, tokens));
    }
    let (word, rest) = expect(tokens, &[Terminal::Else])?;
    let (other, rest) = arm(alloc, rest, depth)?;
    Ok((Some((word, other)), rest))
}

/// IF, its arm and its ELSE, and the `;` after it.
#[cycle(arm)]
#[tactic(auto, unfolding(abel_grammar::specs::DiagramReaders::read_if))]
fn if_arm<'a>(
    alloc: Global,
    tokens: &'a [Token],
    depth: u8,
) -> Result<((Arm, Option<&'a Token>), &'a [Token]), Halt<'a>>
    ensures { Gives (λ x. ((view_arm x.0.0, option_map (λ t. t.now) x.0.1), x.1.now)) result
        (read_if (read_expr depth) (read_arm depth) tokens.now) }
{
    let (word, rest) = expect(tokens, &[Terminal::If])?;
    let place = word.place;
    let (condition, rest) = expr(alloc, rest, depth)?;
    let (_then, rest) = expect(rest, &[Terminal::Then])?;
    let ((first, end), rest) = arm(alloc, rest, depth)?;
    let unfinished = is_open(&first);
    let (other, rest) = else_arm(alloc, unfinished, rest, depth)?;
    match other {
        None => {
            let then = Boxed::new(alloc, first)?;
            Ok(((make_if(place, condition, then, None), end), rest))
        }
        Some((_else, (second, last))) => {
            let then = Boxed::new(alloc, first)?;
            let other = Boxed::new(alloc, second)?;
            Ok(((make_if(place, condition, then, Some(other)), last), rest))
        }
    }
}

/// An expression, its arm and the `;`.
#[cycle(arm)]
#[tactic(auto, unfolding(abel_grammar::specs::DiagramReaders::read_choice))]
fn choice<'a>(
    alloc: Global,
    tokens: &'a [Token],
    depth: u8,
) -> Result<(CaseArm, &'a [Token]), Halt<'a>>
    ensures { Gives (λ x. (view_choice x.0, x.1.now)) result
        (read_choice (read_expr depth) (read_arm depth) tokens.now) }
{
    let (condition, rest) = expr(alloc, tokens, depth)?;
    let (colon, rest) = expect(rest, &[Terminal::Colon])?;
    let ((result, end), rest) = arm(alloc, rest, depth)?;
    match end {
        None => Err(Halt::Syntax(rest)),
        Some(_end) => Ok((make_choice(condition, colon.place, result), rest)),
    }
}

/// As many choices as are there.
#[cycle(arm)]
fn choices<'a>(
    alloc: Global,
    tokens: &'a [Token],
    depth: u8,
) -> Result<(Vec<CaseArm>, &'a [Token]), Halt<'a>>
    ensures { Gives (λ x. (map view_choice x.0.items, x.1.now)) result
        (read_choices (read_expr depth) (read_arm depth) tokens.now) }
{
    let mut list = Vec::new(alloc);
    let mut rest = tokens;
    'list: while starts(rest, &EXPR_STARTS) {
        let (next, after) = choice(alloc, rest, depth)?;
        list.push(next)?;
        rest = after;
    }
    Ok((list, rest))
}

/// CASE, its choices, and the `;` after ENDCASE.
#[cycle(arm)]
#[tactic(auto, unfolding(abel_grammar::specs::DiagramReaders::read_case))]
fn case_arm<'a>(
    alloc: Global,
    tokens: &'a [Token],
    depth: u8,
) -> Result<((Arm, Option<&'a Token>), &'a [Token]), Halt<'a>>
    ensures { Gives (λ x. ((view_arm x.0.0, option_map (λ t. t.now) x.0.1), x.1.now)) result
        (read_case (read_expr depth) (read_arm depth) tokens.now) }
{
    let (word, rest) = expect(tokens, &[Terminal::Case])?;
    let place = word.place;
    let (arms, rest) = choices(alloc, rest, depth)?;
    let (_endcase, rest) = expect(rest, &[Terminal::Endcase])?;
    let (end, rest) = maybe(rest, Terminal::Semicolon);
    Ok(((make_case(place, arms), end), rest))
}

/// An arm, if no nesting may be opened, and the `;` after it.
#[tactic(auto, unfolding(abel_grammar::specs::DiagramReaders::read_arm))]
fn flat_arm<'a>(
    alloc: Global,
    tokens: &'a [Token],
) -> Result<((Arm, Option<&'a Token>), &'a [Token]), Halt<'a>>
    ensures { Gives (λ x. ((view_arm x.0.0, option_map (λ t. t.now) x.0.1), x.1.now)) result
        (read_arm 0 tokens.now) }
{
    if starts(tokens, &GOAL_STARTS) {
        goal_arm(alloc, tokens, 0)
    } else if starts(tokens, &[Terminal::If]) {
        Err(Halt::TooDeep(tokens))
    } else if starts(tokens, &[Terminal::Case]) {
        Err(Halt::TooDeep(tokens))
    } else {
        Err(Halt::Syntax(tokens))
    }
}

/// An arm, and the `;` after it.
#[cycle(arm)]
#[tactic(auto, unfolding(abel_grammar::specs::DiagramReaders::read_arm))]
fn arm<'a>(
    alloc: Global,
    tokens: &'a [Token],
    depth: u8,
) -> Result<((Arm, Option<&'a Token>), &'a [Token]), Halt<'a>>
    ensures { Gives (λ x. ((view_arm x.0.0, option_map (λ t. t.now) x.0.1), x.1.now)) result
        (read_arm depth tokens.now) }
{
    if depth == 0 {
        return flat_arm(alloc, tokens);
    }
    if starts(tokens, &GOAL_STARTS) {
        goal_arm(alloc, tokens, depth)
    } else if starts(tokens, &[Terminal::If]) {
        if_arm(alloc, tokens, depth - 1)
    } else {
        case_arm(alloc, tokens, depth - 1)
    }
}

/// GOTO, IF or CASE, and the `;` after it.
#[tactic(auto, unfolding(abel_grammar::specs::DiagramReaders::read_leading))]
fn leading<'a>(
    alloc: Global,
    tokens: &'a [Token],
    depth: u8,
) -> Result<((Arm, Option<&'a Token>), &'a [Token]), Halt<'a>>
    ensures { Gives (λ x. ((view_arm x.0.0, option_map (λ t. t.now) x.0.1), x.1.now)) result
        (read_leading depth tokens.now) }
{
    if starts(tokens, &[Terminal::Goto]) {
        return goto_goal(alloc, tokens, depth);
    }
    if depth == 0 {
        return if starts(tokens, &[Terminal::If]) {
            Err(Halt::TooDeep(tokens))
        } else if starts(tokens, &[Terminal::Case]) {
            Err(Halt::TooDeep(tokens))
        } else {
            Err(Halt::Syntax(tokens))
        };
    }
    if starts(tokens, &[Terminal::If]) {
        if_arm(alloc, tokens, depth - 1)
    } else {
        case_arm(alloc, tokens, depth - 1)
    }
}

/// A transition, whose `;` may be missing after ENDWITH, ENDCASE or `}`.
#[tactic(auto, unfolding(abel_grammar::specs::DiagramReaders::read_trans))]
pub fn trans<'a>(
    alloc: Global,
    tokens: &'a [Token],
    depth: u8,
) -> Result<(Arm, &'a [Token]), Halt<'a>>
    ensures { Gives (λ x. (view_arm x.0, x.1.now)) result (read_trans depth tokens.now) }
{
    let ((arm, end), rest) = leading(alloc, tokens, depth)?;
    if is_closed(&arm) || end.is_some() {
        Ok((arm, rest))
    } else {
        Err(Halt::Syntax(rest))
    }
}
