//! The bits of an input header, and the product of a row: the literals of its inputs.

ghost use Rattle.std.specs.Prelude.{◌≡◌, ◌<◌, true, None, Some, [], ◌∷◌, length, map, IfOk};
ghost use Rattle.truth_tables.specs.Prelude.{arena, formula_at, Const, row_literals, view, term_nodes, Context, term_of, Keeps, AreIn, bits_at, unknown_at, refusal_of, context_for, BuildsNodes, IsBit, part};
ghost use Rattle.truth_tables.specs.{IsOver, is_computed, position_literal, StandForInputs};

use crate::part::{Stand, stand_of};
use abel_tree::Expr;
use bit_expr::{ExprId, Exprs, Node};
use equations::unit_bits;
use pld_base::{OutOfMemory, Place};
use pld_device::Device;
use section_targets::{SectionScope, add_node, guard_else, meet};
use set_expr::{Scope, SectionFault, Shape};
use std::alloc::{AllocError, Global};

/// Whether an expression is an operator of two operands, after signs, parentheses and constants' names.
fn has_operator<'a>(scope: &Scope<'a>, expr: &'a Expr) -> bool
    ensures { (d : Context) → IsOver scope.now d → result ≡ is_computed (term_of d.known (view expr.now)) }
{
    let mut at = expr;
    loop {
        match at {
            Expr::Name { word, .. } => {
                match stand_of(scope, word.text.bytes(), None) {
                    Stand::Constant(value) => at = value,
                    Stand::Part(_) => return false,
                }
            }
            Expr::Paren { inner, .. } => at = inner.get(),
            Expr::Unary { inner, .. } => at = inner.get(),
            Expr::Binary { .. } => return true,
            Expr::Number(_) => return false,
            Expr::Special { .. } => return false,
            Expr::Set { .. } => return false,
        }
    }
}

/// Bits as positions.
fn list_positions(alloc: Global, bits: &[ExprId]) -> Result<Vec<Option<ExprId>>, AllocError>
    ensures { IfOk result (λ ps. ps.items ≡ map Some bits.now) }
{
    bits.iter().map(|bit| Some(*bit)).collect(alloc)
}

/// The positions of an input header from the left, None at X, as nodes of the unit at this place. Those of a number are the
/// 32 bits of what an operator makes, and none otherwise.
pub(crate) fn header_bits<D: Device>(
    alloc: Global,
    scope: &SectionScope<'_, D>,
    header: &Expr,
    unit: Place,
    exprs: &mut Exprs,
) -> Result<Vec<Option<ExprId>>, SectionFault>
    requires accepted { refusal_of scope.now (view header.now) ≡ None }
    ensures keeps { Keeps (arena exprs.old) (arena exprs.new) }
    ensures builds { BuildsNodes (part unit (term_nodes (context_for D.table scope.now) (view header.now)) ∷ []) exprs.old exprs.new result }
    ensures inputs { IfOk result (λ ps. StandForInputs (context_for D.table scope.now) (term_of (context_for D.table scope.now).known (view header.now)) (arena exprs.new) ps.items) }
{
    let shaped = unit_bits::<D>(alloc, scope, header, unit, exprs)?;
    match shaped.shape {
        Shape::Number(_) => {
            if !has_operator(scope.scope(), header) {
                return Ok(Vec::new(alloc));
            }
            let bits = meet(alloc, &shaped, 32)?;
            let mut positions = list_positions(alloc, &bits)?;
            positions.reverse();
            Ok(positions)
        }
        _ => {
            let mut positions = shaped.places.into_vec();
            positions.reverse();
            Ok(positions)
        }
    }
}

/// What was found before, and a position of the header at a level; one that is X counts for nothing, and X matches both
/// levels.
fn with_position(
    exprs: &mut Exprs,
    found: ExprId,
    position: Option<ExprId>,
    level: Option<bool>,
    unit: Place,
) -> Result<ExprId, SectionFault>
    requires found { found.0 < length (arena exprs.old) }
    requires position { AreIn (length (arena exprs.old)) (position ∷ []) }
    ensures builds { BuildsNodes (part unit (position_literal (arena exprs.old) (formula_at (arena exprs.old) found) position level).nodes ∷ []) exprs.old exprs.new result }
    ensures bit { IfOk result (λ id. IsBit (arena exprs.new) id (position_literal (arena exprs.old) (formula_at (arena exprs.old) found) position level).what) }
{
    match (position, level) {
        (Some(bit), Some(on)) => {
            if on {
                add_node(exprs, Node::And(found, bit), unit)
            } else {
                guard_else(exprs, found, bit, unit)
            }
        }
        (Some(_), None) => Ok(found),
        (None, _) => Ok(found),
    }
}

/// The product of the literals of a row's levels at the positions of the input header, both from the left.
pub(crate) fn row_product(
    exprs: &mut Exprs,
    header: &[Option<ExprId>],
    levels: &[Option<bool>],
    unit: Place,
) -> Result<ExprId, SectionFault>
    requires { AreIn (length (arena exprs.old)) header.now }
    ensures builds { BuildsNodes (part unit (row_literals (Const true) (unknown_at header.now) (bits_at (arena exprs.old) header.now) levels.now).nodes ∷ []) exprs.old exprs.new result }
    ensures bit { IfOk result (λ id. IsBit (arena exprs.new) id (row_literals (Const true) (unknown_at header.now) (bits_at (arena exprs.old) header.now) levels.now).what) }
{
    let mut found = ExprId(1);
    let count = header.len().min(levels.len());
    for index in 0..count {
        found = with_position(exprs, found, header[index], levels[index], unit)?;
    }
    Ok(found)
}
