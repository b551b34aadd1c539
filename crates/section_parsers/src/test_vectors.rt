//! Test vectors from tokens.

ghost use Rattle.std.specs.Prelude.{◌≡◌, ℕ, map, [], ◌∷◌};
ghost use Rattle.section_parsers.specs.Prelude.{read_optional, view_vector_row, view_section, Gives, among, read_text, read_vector_row, read_vector_header, read_vector_rows, read_vectors};

use crate::sides::{EXPR_STARTS, sides};
use abel_grammar::{Halt, Terminal, expect, starts};
use abel_lexer::Token;
use abel_tree::{Section, VectorRow, Vectors, Word};
use expr_parser::text;
use pld_base::ListOf;
use std::alloc::Global;

/// A row of test vectors.
#[tactic(auto, unfolding(abel_grammar::specs::TableReaders::read_row_as))]
fn vector_row<'a>(
    alloc: Global,
    tokens: &'a [Token],
    depth: u8,
) -> Result<(VectorRow, &'a [Token]), Halt<'a>>
    ensures { Gives (λ x. (view_vector_row x.0, x.1.now)) result (read_vector_row depth tokens.now) }
{
    match tokens {
        [] => Err(Halt::Syntax(tokens)),
        [first, ..] => {
            let place = first.place;
            let ((inputs, (_arrow, (outputs, _end))), rest) = sides(
                alloc,
                tokens,
                depth,
                &[Terminal::Arrow],
                Terminal::Semicolon,
            )?;
            Ok((
                VectorRow {
                    place,
                    inputs,
                    outputs,
                },
                rest,
            ))
        }
    }
}

/// The header of test vectors, in parentheses.
#[tactic(auto, unfolding(abel_grammar::specs::TableReaders::read_header_as))]
fn vector_header<'a>(
    alloc: Global,
    tokens: &'a [Token],
    depth: u8,
) -> Result<(VectorRow, &'a [Token]), Halt<'a>>
    ensures { Gives (λ x. (view_vector_row x.0, x.1.now)) result
        (read_vector_header depth tokens.now) }
{
    if depth == 0 {
        return if starts(tokens, &[Terminal::Open]) {
            Err(Halt::TooDeep(tokens))
        } else {
            Err(Halt::Syntax(tokens))
        };
    }
    let (open, rest) = expect(tokens, &[Terminal::Open])?;
    let ((inputs, (_arrow, (outputs, _close))), rest) = sides(
        alloc,
        rest,
        depth - 1,
        &[Terminal::Arrow],
        Terminal::Close,
    )?;
    Ok((
        VectorRow {
            place: open.place,
            inputs,
            outputs,
        },
        rest,
    ))
}

/// As many rows of test vectors as are there.
fn vector_rows<'a>(
    alloc: Global,
    tokens: &'a [Token],
    depth: u8,
) -> Result<(Vec<VectorRow>, &'a [Token]), Halt<'a>>
    ensures { Gives (λ x. (map view_vector_row x.0.items, x.1.now)) result
        (read_vector_rows depth tokens.now) }
{
    let mut list = Vec::new(alloc);
    let mut rest = tokens;
    'list: while starts(rest, &EXPR_STARTS) {
        let (next, after) = vector_row(alloc, rest, depth)?;
        list.push(next)?;
        rest = after;
    }
    Ok((list, rest))
}

/// A string, if there is one.
fn some_text<'a>(
    alloc: Global,
    tokens: &'a [Token],
) -> Result<(Option<Word>, &'a [Token]), Halt<'a>>
    ensures { Gives (λ x. (x.0, x.1.now)) result
        (read_optional (among (Terminal.Text ∷ [])) read_text tokens.now) }
{
    if !starts(tokens, &[Terminal::Text]) {
        return Ok((None, tokens));
    }
    let (word, rest) = text(alloc, tokens)?;
    Ok((Some(word), rest))
}

/// Test vectors.
#[tactic(auto, unfolding(abel_grammar::specs::TableReaders::read_vectors))]
pub fn vectors<'a>(
    alloc: Global,
    tokens: &'a [Token],
    depth: u8,
) -> Result<(Section, &'a [Token]), Halt<'a>>
    ensures { Gives (λ x. (view_section x.0, x.1.now)) result (read_vectors depth tokens.now) }
{
    let (_word, rest) = expect(tokens, &[Terminal::TestVectors])?;
    let (note, rest) = some_text(alloc, rest)?;
    let (header, rest) = vector_header(alloc, rest, depth)?;
    let (rows, rest) = vector_rows(alloc, rest, depth)?;
    Ok((
        Section::Vectors(Vectors {
            note,
            place: header.place,
            inputs: header.inputs,
            outputs: header.outputs,
            rows: ListOf::from_vec(rows),
        }),
        rest,
    ))
}
