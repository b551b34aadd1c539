//! The tree that tokens spell, all of them.

ghost use Rattle.std.specs.Prelude.{◌≡◌, IfOk, IfErr};
ghost use Rattle.abel_grammar.specs.Verdict.{Spells};
ghost use Rattle.abel_tree.specs.Tree.{ModuleTree};
ghost use Rattle.abel_tree.specs.View.{view_module};
ghost use Rattle.abel_grammar.specs.Places.{places_of_module};
ghost use Rattle.abel_grammar.specs.Order.{Along, TokensRise, SectionsRise};
ghost use Rattle.abel_grammar.specs.Modules as grammar;
ghost use Rattle.abel_parser.specs.Refusals.{place_at, IsParsed, IsRefused};

use crate::fault::ParseFault;
use abel_grammar::Halt;
use abel_lexer::Token;
use abel_tree::Module;
use pld_base::Place;
use section_parsers::source;
use std::alloc::Global;

/// How many constructs may be open round a token.
const NESTINGS: u8 = 64;

/// The place of the next token, or the end.
fn place_of(tokens: &[Token], end: Place) -> Place
    ensures { result ≡ place_at tokens.now end 0 }
{
    match tokens {
        [first, ..] => first.place,
        [] => end,
    }
}

/// The one tree that the tokens spell, all of them. `end` is the place after the last byte of the text.
pub fn parse(alloc: Global, tokens: &[Token], end: Place) -> Result<Module, ParseFault>
    ensures tree { IfOk result (λ m. IsParsed tokens.now (view_module m)) }
    ensures only { IfOk result (λ m. (t : ModuleTree) → Spells grammar.source tokens.now t
        → t ≡ view_module m) }
    ensures places { IfOk result (λ m. Along tokens.now (places_of_module (view_module m))) }
    ensures rising { IfOk result (λ m. TokensRise tokens.now → SectionsRise (view_module m).sections) }
    ensures refused { IfErr result (IsRefused tokens.now end) }
{
    match source(alloc, tokens, NESTINGS) {
        Ok((module, rest)) => {
            if rest.is_empty() {
                Ok(module)
            } else {
                Err(ParseFault::Syntax(place_of(rest, end)))
            }
        }
        Err(Halt::Syntax(left)) => Err(ParseFault::Syntax(place_of(left, end))),
        Err(Halt::TooDeep(left)) => Err(ParseFault::TooDeep(place_of(left, end))),
        Err(Halt::Memory) => Err(ParseFault::OutOfMemory),
    }
}
