//! The conditions of CASE, and the guards of its arms.

ghost use Rattle.std.specs.Prelude.{◌≡◌, ◌<◌, ℕ, None, [], get_or, length, IfOk};
ghost use Rattle.state_diagrams.specs.Prelude.{arena, formula_at, first_refusal, section_order, context_for, AreBits, AreIn, StillStands};
ghost use Rattle.state_diagrams.specs.{case_arms, case_choices, case_place, arm_guards, AreClear, MakesGuards, choices_refused, WalksConditions};

use abel_tree::{Case, earlier};
use bit_expr::{ExprId, Exprs};
use equations::{Condition, check_condition, then_guard};
use pld_base::OutOfMemory;
use pld_device::Device;
use section_targets::{SectionScope, Walked};
use set_expr::{Guard, SectionFault};
use std::alloc::Global;

/// The first refusal of the conditions of CASE, each at its colon.
fn check_conditions<D: Device>(
    alloc: Global,
    scope: &SectionScope<'_, D>,
    case: &Case,
) -> Result<Option<SectionFault>, OutOfMemory>
    ensures { IfOk result (λ f. f ≡ first_refusal section_order (choices_refused (context_for D.table scope.now) (case_choices case.now))) }
{
    let mut fault = None;
    for arm in case.arms.as_slice() {
        let found = check_condition(alloc, scope.scope(), arm.colon, &arm.condition)?;
        fault = earlier(fault, found);
    }
    Ok(fault)
}

/// The guards of the arms of CASE, if no condition is refused, as nodes of its unit.
fn make_guards<D: Device>(
    alloc: Global,
    scope: &SectionScope<'_, D>,
    guard: ExprId,
    case: &Case,
    exprs: &mut Exprs,
) -> Result<Vec<ExprId>, SectionFault>
    requires guard { guard.0 < length (arena exprs.old) }
    requires accepted { AreClear D.table scope.now (case_choices case.now) }
    ensures builds { MakesGuards D.table scope.now guard (case_place case.now) (case_choices case.now) exprs.old exprs.new result }
    ensures guards { IfOk result (λ ids. AreBits (arena exprs.new) ids.items (arm_guards (context_for D.table scope.now) (formula_at (arena exprs.old) guard) (case_arms case.now))) }
{
    let mut guards = Vec::new(alloc);
    for arm in case.arms.as_slice() {
        let condition = Condition {
            unit: case.place,
            expr: &arm.condition,
            otherwise: false,
        };
        let chosen = then_guard::<D>(alloc, scope, guard, &condition, exprs)?;
        guards.push(chosen.then)?;
    }
    Ok(guards)
}

/// The conditions of CASE as one unit: the guard of each arm, and none where something is refused.
pub(crate) fn walk_conditions<D: Device>(
    alloc: Global,
    scope: &SectionScope<'_, D>,
    guard: ExprId,
    case: &Case,
    out: &mut Walked,
) -> Result<Vec<ExprId>, OutOfMemory>
    requires guard { guard.0 < length (arena out.old.exprs) }
    ensures walks { IfOk result (λ ids. WalksConditions D.table scope.now guard (case_place case.now) (case_choices case.now) out.old out.new) }
    ensures stands { StillStands [] [] out.old out.new }
    ensures inside { IfOk result (λ ids. AreIn (length (arena out.new.exprs)) ids.items) }
    ensures guards { IfOk result (λ ids. out.new.fault ≡ None → AreBits (arena out.new.exprs) ids.items (arm_guards (context_for D.table scope.now) (formula_at (arena out.old.exprs) guard) (case_arms case.now))) }
{
    let fault = check_conditions::<D>(alloc, scope, case)?;
    if out.refuse(fault) {
        return Ok(Vec::new(alloc));
    }
    match make_guards::<D>(alloc, scope, guard, case, &mut out.exprs) {
        Ok(guards) => Ok(guards),
        Err(fault) => {
            out.keep_limit(Err(fault))?;
            Ok(Vec::new(alloc))
        }
    }
}

/// The guard of an arm by its bit; if there isn't one any guard serves.
pub(crate) fn under_arm(guard: Guard, guards: &[ExprId], index: usize) -> Guard
    ensures when { result.when ≡ get_or guards.now index guard.when }
    ensures dontcare { result.dontcare ≡ guard.dontcare }
    ensures block { result.block ≡ guard.block }
    ensures inside { (count : ℕ) → guard.when.0 < count → AreIn count guards.now → result.when.0 < count }
{
    let when = guards.get(index).copied().unwrap_or(guard.when);
    Guard { when, ..guard }
}
