//! The signs that join operands, by how tight they bind.

ghost use Rattle.std.specs.Prelude.{◌≡◌};
ghost use Rattle.abel_grammar.specs.Reading.{starts, read_token};
ghost use Rattle.abel_grammar.specs.Gives.{Gives};
ghost use Rattle.abel_grammar.specs.Terminals.{among};
ghost use Rattle.abel_grammar.specs.Expressions.{products, sums, relations};

use abel_grammar::{Halt, Terminal, expect, starts};
use abel_lexer::Token;

const PRODUCTS: [Terminal; 6] = [
    Terminal::And,
    Terminal::ShiftLeft,
    Terminal::ShiftRight,
    Terminal::Times,
    Terminal::Over,
    Terminal::Rest,
];

const SUMS: [Terminal; 5] = [
    Terminal::Plus,
    Terminal::Minus,
    Terminal::Or,
    Terminal::Xor,
    Terminal::Xnor,
];

const RELATIONS: [Terminal; 6] = [
    Terminal::IsEqual,
    Terminal::Unequal,
    Terminal::Less,
    Terminal::LessEqual,
    Terminal::Greater,
    Terminal::GreaterEqual,
];

/// Whether the sign of a product is there.
pub fn begins_product(tokens: &[Token]) -> bool
    ensures { result ≡ starts (among products) tokens.now }
{
    starts(tokens, &PRODUCTS)
}

/// The sign of a product.
pub fn product_sign<'a>(tokens: &'a [Token]) -> Result<(&'a Token, &'a [Token]), Halt<'a>>
    ensures { Gives (λ x. (x.0.now, x.1.now)) result (read_token (among products) tokens.now) }
{
    expect(tokens, &PRODUCTS)
}

/// Whether the sign of a sum is there.
pub fn begins_sum(tokens: &[Token]) -> bool
    ensures { result ≡ starts (among sums) tokens.now }
{
    starts(tokens, &SUMS)
}

/// The sign of a sum.
pub fn sum_sign<'a>(tokens: &'a [Token]) -> Result<(&'a Token, &'a [Token]), Halt<'a>>
    ensures { Gives (λ x. (x.0.now, x.1.now)) result (read_token (among sums) tokens.now) }
{
    expect(tokens, &SUMS)
}

/// Whether the sign of a relation is there.
pub fn begins_relation(tokens: &[Token]) -> bool
    ensures { result ≡ starts (among relations) tokens.now }
{
    starts(tokens, &RELATIONS)
}

/// The sign of a relation.
pub fn relation_sign<'a>(tokens: &'a [Token]) -> Result<(&'a Token, &'a [Token]), Halt<'a>>
    ensures { Gives (λ x. (x.0.now, x.1.now)) result (read_token (among relations) tokens.now) }
{
    expect(tokens, &RELATIONS)
}
