//! Operands that need no nesting.

ghost use Rattle.std.specs.Prelude.{◌≡◌, [], ◌∷◌};
ghost use Rattle.abel_grammar.specs.Further.{starts_two};
ghost use Rattle.abel_tree.specs.View.{view, view_member};
ghost use Rattle.abel_grammar.specs.Gives.{Gives};
ghost use Rattle.abel_grammar.specs.Terminals.{among};
ghost use Rattle.abel_grammar.specs.Expressions.{letter_of};
ghost use Rattle.abel_grammar.specs.ExpressionReaders.{read_name_tree, read_number_tree, read_special, read_simple, read_span_member};

use crate::words::{extension_in, maybe, name, number};
use abel_grammar::{Halt, Terminal, expect, is_among, starts};
use abel_lexer::Token;
use abel_tree::{Expr, Member};
use std::alloc::Global;

/// A name and its extension.
#[tactic(auto, unfolding(abel_grammar::specs::ExpressionReaders::read_name_tree))]
pub fn name_tree<'a>(alloc: Global, tokens: &'a [Token]) -> Result<(Expr, &'a [Token]), Halt<'a>>
    ensures { Gives (λ x. (view x.0, x.1.now)) result (read_name_tree tokens.now) }
{
    let (word, rest) = name(alloc, tokens)?;
    let (suffix, rest) = maybe(rest, Terminal::Extension);
    let extension = extension_in(suffix);
    Ok((Expr::Name { word, extension }, rest))
}

/// A number.
#[tactic(auto, unfolding(abel_grammar::specs::ExpressionReaders::read_number_tree))]
fn number_tree<'a>(tokens: &'a [Token]) -> Result<(Expr, &'a [Token]), Halt<'a>>
    ensures { Gives (λ x. (view x.0, x.1.now)) result (read_number_tree tokens.now) }
{
    let (number, rest) = number(tokens)?;
    Ok((Expr::Number(number), rest))
}

/// The letter of a special, in upper case.
fn letter_of(text: &[u8]) -> u8
    ensures { result ≡ letter_of text.now }
{
    match text {
        [_, letter, ..] => letter.to_ascii_uppercase(),
        _ => 0,
    }
}

/// A special.
#[tactic(auto, unfolding(abel_grammar::specs::ExpressionReaders::read_special))]
fn special<'a>(tokens: &'a [Token]) -> Result<(Expr, &'a [Token]), Halt<'a>>
    ensures { Gives (λ x. (view x.0, x.1.now)) result (read_special tokens.now) }
{
    let (token, rest) = expect(tokens, &[Terminal::Special])?;
    Ok((
        Expr::Special {
            letter: letter_of(token.text.bytes()),
            place: token.place,
        },
        rest,
    ))
}

/// What needs no nesting.
#[tactic(auto, unfolding(abel_grammar::specs::ExpressionReaders::read_simple))]
pub fn simple<'a>(alloc: Global, tokens: &'a [Token]) -> Result<(Expr, &'a [Token]), Halt<'a>>
    ensures { Gives (λ x. (view x.0, x.1.now)) result (read_simple tokens.now) }
{
    if starts(tokens, &[Terminal::Identifier]) {
        name_tree(alloc, tokens)
    } else if starts(tokens, &[Terminal::Number]) {
        number_tree(tokens)
    } else {
        special(tokens)
    }
}

/// A name and `..` are there.
pub fn at_range(tokens: &[Token]) -> bool
    ensures { result ≡ starts_two (among (Terminal.Identifier ∷ [])) (among (Terminal.Range ∷ []))
        tokens.now }
{
    match tokens {
        [] => false,
        [first, rest @ ..] => {
            is_among(first, &[Terminal::Identifier]) && starts(rest, &[Terminal::Range])
        }
    }
}

/// A range of names.
#[tactic(auto, unfolding(abel_grammar::specs::ExpressionReaders::read_span_member))]
pub fn span_member<'a>(
    alloc: Global,
    tokens: &'a [Token],
) -> Result<(Member, &'a [Token]), Halt<'a>>
    ensures { Gives (λ x. (view_member x.0, x.1.now)) result (read_span_member tokens.now) }
{
    let (first, rest) = name(alloc, tokens)?;
    let (_range, rest) = expect(rest, &[Terminal::Range])?;
    let (last, rest) = name(alloc, rest)?;
    Ok((Member::Span { first, last }, rest))
}
