//! The walk over transitions: each unit is checked, and made if nothing is refused so far.

ghost use Rattle.std.specs.Prelude.{◌<◌, length, OnOk};
ghost use Rattle.state_diagrams.specs.Prelude.{arena, entries_of, ACase, view_arm, AreNamed};
ghost use Rattle.state_diagrams.specs.{case_choices, case_place, view_goal, view_if, view_arms, StandsBranch, StandsBranches, WalksBranch, WalksBranches};

use crate::choices::{under_arm, walk_conditions};
use crate::goals::walk_value;
use crate::machine::Machine;
use abel_tree::{Arm, Case, Goal, If};
use equations::{Condition, walk_condition, walk_statements};
use pld_base::OutOfMemory;
use pld_device::Device;
use section_targets::Walked;
use set_expr::Guard;
use std::alloc::Global;

/// A goal with the statements after it.
fn walk_goal<D: Device>(
    alloc: Global,
    machine: &Machine<'_, D>,
    guard: Guard,
    goal: &Goal,
    out: &mut Walked,
) -> Result<(), OutOfMemory>
    requires signals { AreNamed (length (entries_of machine.now.scope.now)) machine.now.registers.now }
    requires guard { guard.when.0 < length (arena out.old.exprs) }
    ensures walks { OnOk result (WalksBranch D.table machine.now guard (view_goal goal.now) out.old out.new) }
    ensures stands { StandsBranch D.table machine.now guard (view_goal goal.now) out.old out.new }
{
    walk_value::<D>(alloc, machine, guard, goal, out)?;
    match &goal.with {
        None => Ok(()),
        Some(list) => walk_statements::<D>(alloc, machine.scope, guard, list.as_slice(), out),
    }
}

/// IF: the unit of its condition, its branch and that of its ELSE.
#[cycle(walks)]
fn walk_if<D: Device>(
    alloc: Global,
    machine: &Machine<'_, D>,
    guard: Guard,
    choice: &If,
    out: &mut Walked,
) -> Result<(), OutOfMemory>
    requires signals { AreNamed (length (entries_of machine.now.scope.now)) machine.now.registers.now }
    requires guard { guard.when.0 < length (arena out.old.exprs) }
    ensures walks { OnOk result (WalksBranch D.table machine.now guard (view_if choice.now) out.old out.new) }
    ensures stands { StandsBranch D.table machine.now guard (view_if choice.now) out.old out.new }
{
    let condition = Condition {
        unit: choice.place,
        expr: &choice.condition,
        otherwise: choice.otherwise.is_some(),
    };
    let chosen = walk_condition::<D>(alloc, machine.scope, guard.when, &condition, out)?;
    let then = Guard {
        when: chosen.then,
        ..guard
    };
    walk_arm::<D>(alloc, machine, then, choice.then.get(), out)?;
    match &choice.otherwise {
        None => Ok(()),
        Some(other) => {
            let otherwise = Guard {
                when: chosen.otherwise,
                ..guard
            };
            walk_arm::<D>(alloc, machine, otherwise, other.get(), out)
        }
    }
}

/// CASE: the unit of all its conditions, and its arms, each under its guard.
#[cycle(walks)]
fn walk_case<D: Device>(
    alloc: Global,
    machine: &Machine<'_, D>,
    guard: Guard,
    case: &Case,
    out: &mut Walked,
) -> Result<(), OutOfMemory>
    requires signals { AreNamed (length (entries_of machine.now.scope.now)) machine.now.registers.now }
    requires guard { guard.when.0 < length (arena out.old.exprs) }
    ensures walks { OnOk result (WalksBranch D.table machine.now guard (ACase (case_place case.now) (case_choices case.now)) out.old out.new) }
    ensures stands { StandsBranch D.table machine.now guard (ACase (case_place case.now) (case_choices case.now)) out.old out.new }
{
    let bits = walk_conditions::<D>(alloc, machine.scope, guard.when, case, out)?;
    let arms = case.arms.as_slice();
    for index in 0..arms.len() {
        let then = under_arm(guard, &bits, index);
        walk_arm::<D>(alloc, machine, then, &arms[index].result, out)?;
    }
    Ok(())
}

/// A transition under a guard, after what was walked before. Calls go as deep as the nestings of transitions and
/// statements.
#[cycle(walks)]
fn walk_arm<D: Device>(
    alloc: Global,
    machine: &Machine<'_, D>,
    guard: Guard,
    arm: &Arm,
    out: &mut Walked,
) -> Result<(), OutOfMemory>
    requires signals { AreNamed (length (entries_of machine.now.scope.now)) machine.now.registers.now }
    requires guard { guard.when.0 < length (arena out.old.exprs) }
    ensures walks { OnOk result (WalksBranch D.table machine.now guard (view_arm arm.now) out.old out.new) }
    ensures stands { StandsBranch D.table machine.now guard (view_arm arm.now) out.old out.new }
{
    match arm {
        Arm::Goal(goal) => walk_goal::<D>(alloc, machine, guard, goal, out),
        Arm::If(choice) => walk_if::<D>(alloc, machine, guard, choice, out),
        Arm::Case(case) => walk_case::<D>(alloc, machine, guard, case, out),
    }
}

/// Transitions one after another.
pub(crate) fn walk_arms<D: Device>(
    alloc: Global,
    machine: &Machine<'_, D>,
    guard: Guard,
    arms: &[Arm],
    out: &mut Walked,
) -> Result<(), OutOfMemory>
    requires signals { AreNamed (length (entries_of machine.now.scope.now)) machine.now.registers.now }
    requires guard { guard.when.0 < length (arena out.old.exprs) }
    ensures walks { OnOk result (WalksBranches D.table machine.now guard (view_arms arms.now) out.old out.new) }
    ensures stands { StandsBranches D.table machine.now guard (view_arms arms.now) out.old out.new }
{
    for arm in arms {
        walk_arm::<D>(alloc, machine, guard, arm, out)?;
    }
    Ok(())
}
