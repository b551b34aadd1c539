//! Conditions, and the guards of what is under them.

ghost use Rattle.std.specs.Prelude.{◌≡◌, ◌<◌, None, true, false, [], ◌∷◌, length, IfOk};
ghost use Rattle.equations.specs.Prelude.{arena, formula_at, view, condition_of, choice_nodes, Keeps, refusal_of, BuildsNodes, IsBit, context_for, part, StillStands};
ghost use Rattle.abel_meaning.specs.CountedNodes as counted;
ghost use Rattle.equations.specs.{WalksCondition, AreBothGuards};

use crate::conditions::check_condition;
use crate::values::{Meets, value_bits};
use abel_tree::Expr;
use bit_expr::{ExprId, Exprs, Node};
use pld_base::{OutOfMemory, Place};
use pld_device::Device;
use section_targets::{SectionScope, Walked, add_node, guard_else};
use set_expr::SectionFault;
use std::alloc::Global;

/// A condition as a unit at its place, with an ELSE or without one.
#[derive(Drop)]
pub struct Condition<'a> {
    pub unit: Place,
    pub expr: &'a Expr,
    pub otherwise: bool,
}

/// A condition, and the guard of what counts if it is 1.
#[derive(Clone, Copy, PartialEq, Eq)]
pub struct Chosen {
    pub condition: ExprId,
    pub then: ExprId,
}

/// A condition of which nothing is refused and the guard of what is under it, in its unit.
pub fn then_guard<D: Device>(
    alloc: Global,
    scope: &SectionScope<'_, D>,
    guard: ExprId,
    condition: &Condition<'_>,
    exprs: &mut Exprs,
) -> Result<Chosen, SectionFault>
    requires guard { guard.0 < length (arena exprs.old) }
    requires accepted { refusal_of scope.now (view condition.now.expr.now) ≡ None }
    ensures keeps { Keeps (arena exprs.old) (arena exprs.new) }
    ensures builds { BuildsNodes (part condition.now.unit (choice_nodes (context_for D.table scope.now) (formula_at (arena exprs.old) guard) (view condition.now.expr.now) false) ∷ []) exprs.old exprs.new result }
    ensures inside { IfOk result (λ g. (g.condition.0 < length (arena exprs.new)) × (g.then.0 < length (arena exprs.new))) }
    ensures condition { IfOk result (λ g. IsBit (arena exprs.new) g.condition (condition_of (context_for D.table scope.now) (view condition.now.expr.now))) }
    ensures then { IfOk result (λ g. IsBit (arena exprs.new) g.then (counted.guard_then (formula_at (arena exprs.old) guard) (condition_of (context_for D.table scope.now) (view condition.now.expr.now))).what) }
{
    let meets = Meets {
        unit: condition.unit,
        signals: 1,
    };
    let ids = value_bits::<D>(alloc, scope, condition.expr, meets, exprs)?;
    let bit = ids[0];
    let then = add_node(exprs, Node::And(guard, bit), condition.unit)?;
    Ok(Chosen {
        condition: bit,
        then,
    })
}

/// The guards of what is under a condition and of its ELSE; without an ELSE the second is that of the condition.
#[derive(Clone, Copy, PartialEq, Eq)]
pub struct BothGuards {
    pub then: ExprId,
    pub otherwise: ExprId,
}

/// Both guards of a condition of which nothing is refused, in its unit.
fn both_guards<D: Device>(
    alloc: Global,
    scope: &SectionScope<'_, D>,
    guard: ExprId,
    condition: &Condition<'_>,
    exprs: &mut Exprs,
) -> Result<BothGuards, SectionFault>
    requires guard { guard.0 < length (arena exprs.old) }
    requires accepted { refusal_of scope.now (view condition.now.expr.now) ≡ None }
    ensures builds { BuildsNodes (part condition.now.unit (choice_nodes (context_for D.table scope.now) (formula_at (arena exprs.old) guard) (view condition.now.expr.now) condition.now.otherwise) ∷ []) exprs.old exprs.new result }
    ensures then { IfOk result (λ g. IsBit (arena exprs.new) g.then (counted.guard_then (formula_at (arena exprs.old) guard) (condition_of (context_for D.table scope.now) (view condition.now.expr.now))).what) }
    ensures inside { IfOk result (λ g. g.otherwise.0 < length (arena exprs.new)) }
    ensures otherwise { IfOk result (λ g. condition.now.otherwise ≡ true → IsBit (arena exprs.new) g.otherwise (counted.guard_else (formula_at (arena exprs.old) guard) (condition_of (context_for D.table scope.now) (view condition.now.expr.now))).what) }
{
    let chosen = then_guard::<D>(alloc, scope, guard, condition, exprs)?;
    if condition.otherwise {
        let otherwise = guard_else(exprs, guard, chosen.condition, condition.unit)?;
        Ok(BothGuards {
            then: chosen.then,
            otherwise,
        })
    } else {
        Ok(BothGuards {
            then: chosen.then,
            otherwise: chosen.then,
        })
    }
}

/// A condition and its guards. Where something is refused, what is under it is only checked, so that any guard
/// serves.
pub fn walk_condition<D: Device>(
    alloc: Global,
    scope: &SectionScope<'_, D>,
    guard: ExprId,
    condition: &Condition<'_>,
    out: &mut Walked,
) -> Result<BothGuards, OutOfMemory>
    requires guard { guard.0 < length (arena out.old.exprs) }
    ensures walks { IfOk result (λ g. WalksCondition D.table scope.now guard condition.now.unit (view condition.now.expr.now) condition.now.otherwise out.old out.new) }
    ensures stands { StillStands [] [] out.old out.new }
    ensures guards { IfOk result (AreBothGuards D.table scope.now guard (view condition.now.expr.now) condition.now.otherwise out.old out.new) }
{
    let same = BothGuards {
        then: guard,
        otherwise: guard,
    };
    let fault = check_condition(alloc, scope.scope(), condition.unit, condition.expr)?;
    if out.refuse(fault) {
        return Ok(same);
    }
    match both_guards::<D>(alloc, scope, guard, condition, &mut out.exprs) {
        Ok(guards) => Ok(guards),
        Err(fault) => {
            out.keep_limit(Err(fault))?;
            Ok(same)
        }
    }
}
