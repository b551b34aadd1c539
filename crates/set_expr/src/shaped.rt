//! What an expression amounts to.

use bit_expr::ExprId;
use pld_base::ListOf;

/// A number without a width, one bit, or a set of so many bits.
#[derive(Clone, Copy, PartialEq, Eq)]
pub enum Shape {
    Number(u32),
    Single,
    Set(u8),
}

/// A shape with its positions, the rightmost first; None is X. A number has no position.
#[derive(Drop)]
pub struct Shaped {
    pub shape: Shape,
    pub places: ListOf<Option<ExprId>>,
}
