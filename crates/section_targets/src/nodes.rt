//! Nodes that the units of a source add, and guards with one condition more.

ghost use Rattle.std.specs.Prelude.{◌≡◌, ◌<◌, [], ◌∷◌, length, IfOk};
ghost use Rattle.section_targets.specs.Prelude.{arena, folded, formula_at, LiesIn};
ghost use Rattle.abel_meaning.specs.CountedNodes as counted;
ghost use Rattle.section_targets.specs.{BuildsNodes, IsBit, part};

use bit_expr::{ExprFault, ExprId, Exprs, Node};
use pld_base::Place;
use set_expr::SectionFault;

/// Adds a node of the unit at this place.
pub fn add_node(exprs: &mut Exprs, node: Node, unit: Place) -> Result<ExprId, SectionFault>
    requires { LiesIn (length (arena exprs.old)) node }
    ensures builds { BuildsNodes (part unit (folded (arena exprs.old) node).nodes ∷ []) exprs.old exprs.new result }
    ensures bit { IfOk result (λ id. IsBit (arena exprs.new) id (folded (arena exprs.old) node).what) }
{
    match exprs.add(node) {
        Ok(id) => Ok(id),
        Err(ExprFault::NodeLimit) => Err(SectionFault::NodeLimit(unit)),
        Err(ExprFault::OutOfMemory) => Err(SectionFault::OutOfMemory),
    }
}

/// The guard of what counts if the condition is 0, as nodes of the unit at this place.
pub fn guard_else(
    exprs: &mut Exprs,
    guard: ExprId,
    condition: ExprId,
    unit: Place,
) -> Result<ExprId, SectionFault>
    requires guard { guard.0 < length (arena exprs.old) }
    requires condition { condition.0 < length (arena exprs.old) }
    ensures builds { BuildsNodes (part unit (counted.guard_else (formula_at (arena exprs.old) guard) (formula_at (arena exprs.old) condition)).nodes ∷ []) exprs.old exprs.new result }
    ensures bit { IfOk result (λ id. IsBit (arena exprs.new) id (counted.guard_else (formula_at (arena exprs.old) guard) (formula_at (arena exprs.old) condition)).what) }
{
    let otherwise = add_node(exprs, Node::Not(condition), unit)?;
    add_node(exprs, Node::And(guard, otherwise), unit)
}
