//! What equations, rows and branches contribute to signals.

use abel_tree::Extension;
use bit_expr::{ExprId, Exprs};
use pld_base::{ListOf, Place};

/// A signal, by its number in the order of declaration, or what its extension names of it.
#[derive(Clone, Copy, PartialEq, Eq)]
pub struct Target {
    pub signal: usize,
    pub extension: Option<Extension>,
}

/// If its bit is 1, a contribution says that the signal is 1, that it may be either, or that its table or
/// diagram matches.
#[derive(Clone, Copy, PartialEq, Eq)]
pub enum Gives {
    One,
    Any,
    Match,
}

/// What is given to a target, or to its complement, if the bit `when` is 1. Tables and diagrams are blocks,
/// numbered from 0 through the source; an equation has the block of the diagram that it is in, and else none.
/// `dontcare` says that the block is don't-care for the signal. The place is the target's.
#[derive(Clone, Copy, PartialEq, Eq)]
pub struct Contribution {
    pub target: Target,
    pub complement: bool,
    pub clocked: bool,
    pub block: Option<usize>,
    pub dontcare: bool,
    pub what: Gives,
    pub when: ExprId,
    pub place: Place,
}

/// Contributions in order of the source, over one arena.
#[derive(Drop)]
pub struct Contributions {
    pub exprs: Exprs,
    pub list: ListOf<Contribution>,
}

/// What surrounds a statement: the conditions as one bit, whether `@DCSET` is in force for the block, and the
/// block.
#[derive(Clone, Copy, PartialEq, Eq)]
pub struct Guard {
    pub when: ExprId,
    pub dontcare: bool,
    pub block: Option<usize>,
}
