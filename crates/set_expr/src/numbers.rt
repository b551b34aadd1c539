//! Operators on numbers of 32 bits without a width.

ghost use Rattle.std.specs.Prelude.{◌≡◌};
ghost use Rattle.set_expr.specs.Prelude.{computes_numbers, is_relation, unary_number};

use abel_tree::{Binary, Unary};

/// What an operator gives of two numbers. If the divisor is 0 the quotient is 0 and the rest the number itself;
/// relations give 0 here.
#[tactic(auto, using(crate::proofs::WholeNumbers::and_by_position, crate::proofs::WholeNumbers::or_by_position, crate::proofs::WholeNumbers::xor_by_position, crate::proofs::WholeNumbers::xnor_by_position))]
pub fn number_of(sign: Binary, left: u32, right: u32) -> u32
    ensures { result ≡ computes_numbers sign left right }
{
    match sign {
        Binary::Plus => left.wrapping_add(right),
        Binary::Minus => left.wrapping_sub(right),
        Binary::And => left & right,
        Binary::Or => left | right,
        Binary::Xor => left ^ right,
        Binary::Xnor => !(left ^ right),
        Binary::Times => left.wrapping_mul(right),
        Binary::Over => if right == 0 { 0 } else { left / right },
        Binary::Rest => if right == 0 { left } else { left % right },
        Binary::ShiftLeft => if right < 32 { left << right } else { 0 },
        Binary::ShiftRight => if right < 32 { left >> right } else { 0 },
        Binary::Equal
        | Binary::Unequal
        | Binary::Less
        | Binary::LessEqual
        | Binary::Greater
        | Binary::GreaterEqual => 0,
    }
}

/// The complement of each of the 32 bits, or two's complement.
#[tactic(auto, using(crate::proofs::WholeNumbers::not_by_position))]
pub fn number_under(sign: Unary, number: u32) -> u32
    ensures { result ≡ unary_number sign 32 number }
{
    match sign {
        Unary::Not => !number,
        Unary::Minus => number.wrapping_neg(),
    }
}

/// Whether the sign is a relation's. Takes no memory.
pub fn is_relation(sign: Binary) -> bool
    ensures { result ≡ is_relation sign }
{
    matches!(
        sign,
        Binary::Equal
            | Binary::Unequal
            | Binary::Less
            | Binary::LessEqual
            | Binary::Greater
            | Binary::GreaterEqual
    )
}
