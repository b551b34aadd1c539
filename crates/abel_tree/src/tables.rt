//! Truth tables and test vectors.

use crate::expressions::Expr;
use crate::words::Word;
use pld_base::{ListOf, Place};

/// A row of a truth table; `clocked` for `:>` and not for `->`.
#[derive(Drop)]
pub struct Row {
    pub place: Place,
    pub inputs: Expr,
    pub clocked: bool,
    pub outputs: Expr,
}

/// TRUTH_TABLE with its header and rows.
#[derive(Drop)]
pub struct Table {
    pub place: Place,
    pub inputs: Expr,
    pub clocked: bool,
    pub outputs: Expr,
    pub rows: ListOf<Row>,
}

/// A row of test vectors.
#[derive(Drop)]
pub struct VectorRow {
    pub place: Place,
    pub inputs: Expr,
    pub outputs: Expr,
}

/// TEST_VECTORS with its note, header and rows. The place is that of the header's parenthesis.
#[derive(Drop)]
pub struct Vectors {
    pub note: Option<Word>,
    pub place: Place,
    pub inputs: Expr,
    pub outputs: Expr,
    pub rows: ListOf<VectorRow>,
}
