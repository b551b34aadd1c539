//! Single tokens.

ghost use Rattle.abel_grammar.specs.Terminals.{among};
ghost use Rattle.abel_grammar.specs.Gives.{Gives};
ghost use Rattle.abel_grammar.specs.Reading.{read_token};

use crate::halt::Halt;
use crate::terminal::{Terminal, is_among};
use abel_lexer::Token;

/// The next token, if it is one of these terminals.
pub fn expect<'a>(
    tokens: &'a [Token],
    terminals: &[Terminal],
) -> Result<(&'a Token, &'a [Token]), Halt<'a>>
    ensures { Gives (λ x. (x.0.now, x.1.now)) result (read_token (among terminals.now) tokens.now) }
{
    match tokens {
        [first, rest @ ..] if is_among(first, terminals) => Ok((first, rest)),
        _ => Err(Halt::Syntax(tokens)),
    }
}
