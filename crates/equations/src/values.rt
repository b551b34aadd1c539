//! The bits of values, as nodes of a unit.

ghost use Rattle.std.specs.Prelude.{◌≡◌, None, [], ◌∷◌, length, IfOk};
ghost use Rattle.equations.specs.Prelude.{arena, view, term_nodes, formulas, bits_of, term_of, IsShaped, Keeps, refusal_of, context_for, BuildsNodes, AreBits, part};
ghost use Rattle.abel_meaning.specs.Values.{constant_of};

use abel_tree::Expr;
use bit_expr::{ExprFault, ExprId, Exprs};
use pld_base::Place;
use pld_device::Device;
use section_targets::{SectionScope, meet};
use set_expr::{SectionFault, Shaped};
use std::alloc::Global;

/// How many signals a value of the unit at this place meets.
#[derive(Clone, Copy, PartialEq, Eq)]
pub struct Meets {
    pub unit: Place,
    pub signals: usize,
}

/// The bits of an expression of which nothing is refused, as nodes of the unit at this place; `NodeLimit` is there.
pub fn unit_bits<D: Device>(
    alloc: Global,
    scope: &SectionScope<'_, D>,
    expr: &Expr,
    unit: Place,
    exprs: &mut Exprs,
) -> Result<Shaped, SectionFault>
    requires accepted { refusal_of scope.now (view expr.now) ≡ None }
    ensures keeps { Keeps (arena exprs.old) (arena exprs.new) }
    ensures builds { BuildsNodes (part unit (term_nodes (context_for D.table scope.now) (view expr.now)) ∷ []) exprs.old exprs.new result }
    ensures shaped { IfOk result (λ s. IsShaped (arena exprs.new) s (constant_of (context_for D.table scope.now) (term_of (context_for D.table scope.now).known (view expr.now))) (bits_of (context_for D.table scope.now) (term_of (context_for D.table scope.now).known (view expr.now))).what) }
{
    match scope.bits(alloc, expr, exprs) {
        Ok(shaped) => Ok(shaped),
        Err(ExprFault::NodeLimit) => Err(SectionFault::NodeLimit(unit)),
        Err(ExprFault::OutOfMemory) => Err(SectionFault::OutOfMemory),
    }
}

/// The bits of a value that meets so many signals, from the left.
pub fn value_bits<D: Device>(
    alloc: Global,
    scope: &SectionScope<'_, D>,
    value: &Expr,
    meets: Meets,
    exprs: &mut Exprs,
) -> Result<Vec<ExprId>, SectionFault>
    requires accepted { refusal_of scope.now (view value.now) ≡ None }
    ensures keeps { Keeps (arena exprs.old) (arena exprs.new) }
    ensures builds { BuildsNodes (part meets.unit (term_nodes (context_for D.table scope.now) (view value.now)) ∷ []) exprs.old exprs.new result }
    ensures width { IfOk result (λ ids. length ids.items ≡ meets.signals) }
    ensures bits { IfOk result (λ ids. AreBits (arena exprs.new) ids.items ((formulas (context_for D.table scope.now)).word meets.signals (term_of (context_for D.table scope.now).known (view value.now)))) }
{
    let shaped = unit_bits::<D>(alloc, scope, value, meets.unit, exprs)?;
    let mut ids = meet(alloc, &shaped, meets.signals)?;
    ids.reverse();
    Ok(ids)
}
