//! Truth tables from tokens.

ghost use Rattle.std.specs.Prelude.{◌≡◌, ℕ, map, [], ◌∷◌};
ghost use Rattle.section_parsers.specs.Prelude.{view_row, view_section, Gives, read_row, read_header, read_rows, read_table};
ghost use Rattle.abel_grammar.specs.Tables.{is_clocked};

use crate::sides::{EXPR_STARTS, sides};
use abel_grammar::{Halt, Terminal, expect, starts, terminal_of};
use abel_lexer::Token;
use abel_tree::{Row, Section, Table};
use pld_base::ListOf;
use std::alloc::Global;

const ARROWS: [Terminal; 2] = [Terminal::Arrow, Terminal::ClockedArrow];

/// Whether an arrow is `:>`.
fn is_clocked(arrow: Terminal) -> bool
    ensures { result ≡ is_clocked arrow }
{
    match arrow {
        Terminal::ClockedArrow => true,
        _ => false,
    }
}

/// A row of a truth table.
#[tactic(auto, unfolding(abel_grammar::specs::TableReaders::read_row_as))]
fn row<'a>(alloc: Global, tokens: &'a [Token], depth: u8) -> Result<(Row, &'a [Token]), Halt<'a>>
    ensures { Gives (λ x. (view_row x.0, x.1.now)) result (read_row depth tokens.now) }
{
    match tokens {
        [] => Err(Halt::Syntax(tokens)),
        [first, ..] => {
            let place = first.place;
            let ((inputs, (arrow, (outputs, _end))), rest) = sides(
                alloc,
                tokens,
                depth,
                &ARROWS,
                Terminal::Semicolon,
            )?;
            Ok((
                Row {
                    place,
                    inputs,
                    clocked: is_clocked(terminal_of(arrow)),
                    outputs,
                },
                rest,
            ))
        }
    }
}

/// The header of a truth table, in parentheses.
#[tactic(auto, unfolding(abel_grammar::specs::TableReaders::read_header_as))]
fn header<'a>(alloc: Global, tokens: &'a [Token], depth: u8) -> Result<(Row, &'a [Token]), Halt<'a>>
    ensures { Gives (λ x. (view_row x.0, x.1.now)) result (read_header depth tokens.now) }
{
    if depth == 0 {
        return if starts(tokens, &[Terminal::Open]) {
            Err(Halt::TooDeep(tokens))
        } else {
            Err(Halt::Syntax(tokens))
        };
    }
    let (open, rest) = expect(tokens, &[Terminal::Open])?;
    let ((inputs, (arrow, (outputs, _close))), rest) = sides(
        alloc,
        rest,
        depth - 1,
        &ARROWS,
        Terminal::Close,
    )?;
    Ok((
        Row {
            place: open.place,
            inputs,
            clocked: is_clocked(terminal_of(arrow)),
            outputs,
        },
        rest,
    ))
}

/// As many rows as are there.
fn rows<'a>(
    alloc: Global,
    tokens: &'a [Token],
    depth: u8,
) -> Result<(Vec<Row>, &'a [Token]), Halt<'a>>
    ensures { Gives (λ x. (map view_row x.0.items, x.1.now)) result (read_rows depth tokens.now) }
{
    let mut list = Vec::new(alloc);
    let mut rest = tokens;
    'list: while starts(rest, &EXPR_STARTS) {
        let (next, after) = row(alloc, rest, depth)?;
        list.push(next)?;
        rest = after;
    }
    Ok((list, rest))
}

/// A truth table.
#[tactic(auto, unfolding(abel_grammar::specs::TableReaders::read_table))]
pub fn table<'a>(
    alloc: Global,
    tokens: &'a [Token],
    depth: u8,
) -> Result<(Section, &'a [Token]), Halt<'a>>
    ensures { Gives (λ x. (view_section x.0, x.1.now)) result (read_table depth tokens.now) }
{
    let (word, rest) = expect(tokens, &[Terminal::TruthTable])?;
    let place = word.place;
    let (header, rest) = header(alloc, rest, depth)?;
    let (rows, rest) = rows(alloc, rest, depth)?;
    Ok((
        Section::Table(Table {
            place,
            inputs: header.inputs,
            clocked: header.clocked,
            outputs: header.outputs,
            rows: ListOf::from_vec(rows),
        }),
        rest,
    ))
}
