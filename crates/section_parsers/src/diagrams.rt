//! State diagrams from tokens.

ghost use Rattle.std.specs.Prelude.{◌≡◌, ℕ, map, [], ◌∷◌};
ghost use Rattle.section_parsers.specs.Prelude.{read_repeated, view_arm, view_state, view_section, Gives, among, read_trans, trans_starts, read_state, read_diagram};

use crate::statements::stmts;
use crate::transitions::trans;
use abel_grammar::{Halt, Terminal, expect, starts};
use abel_lexer::Token;
use abel_tree::{Arm, Diagram, Section, State};
use expr_parser::expr;
use pld_base::ListOf;
use std::alloc::Global;

const TRANS_STARTS: [Terminal; 3] = [Terminal::Goto, Terminal::If, Terminal::Case];

/// As many transitions as are there.
fn transitions<'a>(
    alloc: Global,
    tokens: &'a [Token],
    depth: u8,
) -> Result<(Vec<Arm>, &'a [Token]), Halt<'a>>
    ensures { Gives (λ x. (map view_arm x.0.items, x.1.now)) result
        (read_repeated (among trans_starts) (read_trans depth) tokens.now) }
{
    let mut list = Vec::new(alloc);
    let mut rest = tokens;
    'list: while starts(rest, &TRANS_STARTS) {
        let (next, after) = trans(alloc, rest, depth)?;
        list.push(next)?;
        rest = after;
    }
    Ok((list, rest))
}

/// A state.
#[tactic(auto, unfolding(abel_grammar::specs::DiagramReaders::read_state))]
fn state<'a>(
    alloc: Global,
    tokens: &'a [Token],
    depth: u8,
) -> Result<(State, &'a [Token]), Halt<'a>>
    ensures { Gives (λ x. (view_state x.0, x.1.now)) result (read_state depth tokens.now) }
{
    let (word, rest) = expect(tokens, &[Terminal::State])?;
    let place = word.place;
    let (value, rest) = expr(alloc, rest, depth)?;
    let (_colon, rest) = expect(rest, &[Terminal::Colon])?;
    let (statements, rest) = stmts(alloc, rest, depth)?;
    let (transitions, rest) = transitions(alloc, rest, depth)?;
    Ok((
        State {
            place,
            value,
            statements: ListOf::from_vec(statements),
            transitions: ListOf::from_vec(transitions),
        },
        rest,
    ))
}

/// As many states as are there.
fn states<'a>(
    alloc: Global,
    tokens: &'a [Token],
    depth: u8,
) -> Result<(Vec<State>, &'a [Token]), Halt<'a>>
    ensures { Gives (λ x. (map view_state x.0.items, x.1.now)) result
        (read_repeated (among (Terminal.State ∷ [])) (read_state depth) tokens.now) }
{
    let mut list = Vec::new(alloc);
    let mut rest = tokens;
    'list: while starts(rest, &[Terminal::State]) {
        let (next, after) = state(alloc, rest, depth)?;
        list.push(next)?;
        rest = after;
    }
    Ok((list, rest))
}

/// A state diagram.
#[tactic(auto, unfolding(abel_grammar::specs::DiagramReaders::read_diagram))]
pub fn diagram<'a>(
    alloc: Global,
    tokens: &'a [Token],
    depth: u8,
) -> Result<(Section, &'a [Token]), Halt<'a>>
    ensures { Gives (λ x. (view_section x.0, x.1.now)) result (read_diagram depth tokens.now) }
{
    let (word, rest) = expect(tokens, &[Terminal::StateDiagram])?;
    let place = word.place;
    let (registers, rest) = expr(alloc, rest, depth)?;
    let (states, rest) = states(alloc, rest, depth)?;
    Ok((
        Section::Diagram(Diagram {
            place,
            registers,
            states: ListOf::from_vec(states),
        }),
        rest,
    ))
}
