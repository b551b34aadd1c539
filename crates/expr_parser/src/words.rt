//! Single tokens: what each terminal gives to the tree.

ghost use Rattle.std.specs.Prelude.{◌≡◌, [], ◌∷◌, option_map};
ghost use Rattle.abel_grammar.specs.Reading.{read_optional};
ghost use Rattle.abel_grammar.specs.Gives.{Gives};
ghost use Rattle.abel_grammar.specs.Terminals.{among};
ghost use Rattle.abel_grammar.specs.Words.{extension_in, extension_of};
ghost use Rattle.abel_grammar.specs.WordReaders.{read_one, read_name, read_number, read_text, read_dont_care};

use abel_grammar::{Halt, Terminal, expect, is_among};
use abel_lexer::Token;
use abel_tree::{DontCare, Extension, Number, Word};
use pld_base::NameText;
use std::alloc::Global;

/// A name.
#[tactic(auto, unfolding(abel_grammar::specs::WordReaders::read_name))]
pub fn name<'a>(alloc: Global, tokens: &'a [Token]) -> Result<(Word, &'a [Token]), Halt<'a>>
    ensures { Gives (λ x. (x.0, x.1.now)) result (read_name tokens.now) }
{
    let (token, rest) = expect(tokens, &[Terminal::Identifier])?;
    let text = NameText::new(alloc, token.text.bytes())?;
    Ok((
        Word {
            text,
            place: token.place,
        },
        rest,
    ))
}

/// A string, with its quotes.
#[tactic(auto, unfolding(abel_grammar::specs::WordReaders::read_text))]
pub fn text<'a>(alloc: Global, tokens: &'a [Token]) -> Result<(Word, &'a [Token]), Halt<'a>>
    ensures { Gives (λ x. (x.0, x.1.now)) result (read_text tokens.now) }
{
    let (token, rest) = expect(tokens, &[Terminal::Text])?;
    let text = NameText::new(alloc, token.text.bytes())?;
    Ok((
        Word {
            text,
            place: token.place,
        },
        rest,
    ))
}

/// A number.
#[tactic(auto, unfolding(abel_grammar::specs::WordReaders::read_number))]
pub fn number<'a>(tokens: &'a [Token]) -> Result<(Number, &'a [Token]), Halt<'a>>
    ensures { Gives (λ x. (x.0, x.1.now)) result (read_number tokens.now) }
{
    let (token, rest) = expect(tokens, &[Terminal::Number])?;
    Ok((
        Number {
            value: token.value,
            place: token.place,
        },
        rest,
    ))
}

/// A terminal, if it is there.
pub fn maybe(tokens: &[Token], terminal: Terminal) -> (Option<&Token>, &[Token])
    ensures { read_optional (among (terminal ∷ [])) (read_one terminal) tokens.now
        ≡ Ok (option_map (λ t. t.now) result.0, result.1.now) }
{
    match tokens {
        [] => (None, tokens),
        [first, rest @ ..] => {
            if is_among(first, &[terminal]) {
                (Some(first), rest)
            } else {
                (None, tokens)
            }
        }
    }
}

/// The extension that a token's text names.
pub fn extension_of(token: &Token) -> Extension
    ensures { result ≡ extension_of token.now.text }
{
    let word = token.text.bytes();
    if word.eq_ignore_ascii_case(b".clk") {
        Extension::Clk
    } else if word.eq_ignore_ascii_case(b".oe") {
        Extension::Oe
    } else if word.eq_ignore_ascii_case(b".ar") {
        Extension::Ar
    } else if word.eq_ignore_ascii_case(b".sp") {
        Extension::Sp
    } else if word.eq_ignore_ascii_case(b".d") {
        Extension::D
    } else if word.eq_ignore_ascii_case(b".q") {
        Extension::Q
    } else if word.eq_ignore_ascii_case(b".fb") {
        Extension::Fb
    } else {
        Extension::Pin
    }
}

/// The extension that a token names, if there is one.
pub fn extension_in(token: Option<&Token>) -> Option<Extension>
    ensures { result ≡ extension_in (option_map (λ t. t.now) token.entry) }
{
    match token {
        None => None,
        Some(token) => Some(extension_of(token)),
    }
}

/// `@DCSET` or `@ONSET`.
#[tactic(auto, unfolding(abel_grammar::specs::WordReaders::read_dont_care))]
pub fn dont_care<'a>(tokens: &'a [Token]) -> Result<(DontCare, &'a [Token]), Halt<'a>>
    ensures { Gives (λ x. (x.0, x.1.now)) result (read_dont_care tokens.now) }
{
    let (token, rest) = expect(tokens, &[Terminal::DontCare])?;
    let (_end, rest) = maybe(rest, Terminal::Semicolon);
    Ok((
        DontCare {
            on: token.text.bytes().eq_ignore_ascii_case(b"@dcset"),
            place: token.place,
        },
        rest,
    ))
}
