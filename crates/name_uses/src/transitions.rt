//! The parts of transitions.

ghost use Rattle.std.specs.Prelude.{◌≡◌, ◌++◌, ◌∷◌, OnOk, map, option_map};
ghost use Rattle.std.specs.List.{flat_map};
ghost use Rattle.abel_tree.specs.Tree.{choices_of};
ghost use Rattle.abel_tree.specs.View.{view, view_arm, view_choice, view_stmt};
ghost use Rattle.name_uses.specs.Parts.{Read, part, parts_in_branch, parts_in_choice, parts_in_choices, parts_in_with};
ghost use Rattle.name_uses.specs.Rolls.{view_if};
ghost use Rattle.name_uses.specs.Viewed.{view_part};

use crate::part::{Part, Role};
use crate::statements::{put_part, put_stmts};
use abel_tree::{Arm, CaseArm, Goal, If};
use pld_base::OutOfMemory;
use std::alloc::Global;

/// Appends the parts of a transition.
#[cycle(transitions)]
fn put_arm<'a>(alloc: Global, parts: &mut Vec<Part<'a>>, arm: &'a Arm) -> Result<(), OutOfMemory>
    ensures { OnOk result (map view_part parts.new.items
        ≡ map view_part parts.old.items ++ parts_in_branch (view_arm arm.now)) }
{
    match arm {
        Arm::Goal(goal) => put_goal(alloc, parts, goal),
        Arm::If(branch) => put_if(alloc, parts, branch),
        Arm::Case(case) => put_choices(alloc, parts, case.arms.as_slice()),
    }
}

/// Appends the parts of an IF.
#[cycle(transitions)]
fn put_if<'a>(alloc: Global, parts: &mut Vec<Part<'a>>, branch: &'a If) -> Result<(), OutOfMemory>
    ensures { OnOk result (map view_part parts.new.items
        ≡ map view_part parts.old.items ++ parts_in_branch (view_if branch.now)) }
{
    put_part(alloc, parts, Role::Read, &branch.condition)?;
    put_arm(alloc, parts, branch.then.get())?;
    match &branch.otherwise {
        Some(other) => put_arm(alloc, parts, other.get()),
        None => Ok(()),
    }
}

/// Appends the parts of the arms of a CASE.
#[cycle(transitions)]
fn put_choices<'a>(
    alloc: Global,
    parts: &mut Vec<Part<'a>>,
    arms: &'a [CaseArm],
) -> Result<(), OutOfMemory>
    ensures { OnOk result (map view_part parts.new.items
        ≡ map view_part parts.old.items ++ parts_in_choices (choices_of (map view_choice arms.now))) }
{
    for arm in arms {
        put_choice(alloc, parts, arm)?;
    }
    Ok(())
}

/// Appends the parts of an arm of a CASE.
#[cycle(transitions)]
fn put_choice<'a>(
    alloc: Global,
    parts: &mut Vec<Part<'a>>,
    arm: &'a CaseArm,
) -> Result<(), OutOfMemory>
    ensures { OnOk result (map view_part parts.new.items
        ≡ map view_part parts.old.items ++ parts_in_choice (view_choice arm.now)) }
{
    put_part(alloc, parts, Role::Read, &arm.condition)?;
    put_arm(alloc, parts, &arm.result)
}

/// Appends the parts of a GOTO: its value and the statements after WITH.
fn put_goal<'a>(alloc: Global, parts: &mut Vec<Part<'a>>, goal: &'a Goal) -> Result<(), OutOfMemory>
    ensures { OnOk result (map view_part parts.new.items ≡ map view_part parts.old.items
        ++ part Read (view goal.now.value) ∷ parts_in_with (option_map (λ l. map view_stmt l) goal.now.with)) }
{
    put_part(alloc, parts, Role::Read, &goal.value)?;
    match &goal.with {
        Some(list) => put_stmts(alloc, parts, list.as_slice()),
        None => Ok(()),
    }
}

/// Appends the parts of transitions, one after the other.
pub(crate) fn put_arms<'a>(
    alloc: Global,
    parts: &mut Vec<Part<'a>>,
    arms: &'a [Arm],
) -> Result<(), OutOfMemory>
    ensures { OnOk result (map view_part parts.new.items
        ≡ map view_part parts.old.items ++ flat_map parts_in_branch (map view_arm arms.now)) }
{
    for arm in arms {
        put_arm(alloc, parts, arm)?;
    }
    Ok(())
}
