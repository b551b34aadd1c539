//! Goals.

ghost use Rattle.std.specs.Prelude.{◌≡◌, ◌<◌, None, length, OnOk};
ghost use Rattle.state_diagrams.specs.Prelude.{arena, entries_of, view, Keeps, refusal_of, AreNamed};
ghost use Rattle.state_diagrams.specs.{GivesRegister, GivesGoal, StandsValue, WalksValue};

use crate::machine::Machine;
use abel_tree::Goal;
use bit_expr::ExprId;
use equations::{Meets, refuse_value, value_bits};
use pld_base::{OutOfMemory, Place};
use pld_device::Device;
use section_targets::{Aim, Giver, Giving, Walked, give};
use set_expr::{Gives, Guard, Scope, SectionFault};
use std::alloc::Global;
use truth_tables::{Assigning, Matching, give_output};

/// The unit of a goal at its place, under its guard.
#[derive(Clone, Copy, PartialEq, Eq)]
pub(crate) struct GoalUnit {
    pub place: Place,
    pub guard: Guard,
}

/// A register is given its bit of a goal, and a match, as parts of its unit.
fn give_register(
    scope: &Scope<'_>,
    goal: GoalUnit,
    aim: Aim,
    bit: ExprId,
    out: &mut Walked,
) -> Result<(), SectionFault>
    requires signal { aim.signal < length (entries_of scope.now) }
    requires guard { goal.guard.when.0 < length (arena out.old.exprs) }
    requires bit { bit.0 < length (arena out.old.exprs) }
    ensures before { out.new.before ≡ out.old.before }
    ensures fault { out.new.fault ≡ out.old.fault }
    ensures keeps { Keeps (arena out.old.exprs) (arena out.new.exprs) }
    ensures gives { GivesRegister scope.now goal aim bit out.old out.new result }
{
    let giving = Giving {
        unit: goal.place,
        guard: goal.guard,
        extension: None,
        complement: false,
        clocked: true,
        what: Gives::One,
    };
    let giver = Giver { scope, giving };
    give(&giver, aim, bit, &mut out.exprs, &mut out.list)?;
    let assigning = Assigning {
        unit: goal.place,
        guard: goal.guard,
        clocked: true,
    };
    let matching = Matching {
        scope,
        assigning,
        bit: goal.guard.when,
    };
    give_output(&matching, Gives::Match, aim, &mut out.exprs, &mut out.list)
}

/// A goal of which nothing is refused: each register is given its bit, from the left.
fn give_goal<D: Device>(
    alloc: Global,
    machine: &Machine<'_, D>,
    guard: Guard,
    goal: &Goal,
    out: &mut Walked,
) -> Result<(), SectionFault>
    requires signals { AreNamed (length (entries_of machine.now.scope.now)) machine.now.registers.now }
    requires guard { guard.when.0 < length (arena out.old.exprs) }
    requires accepted { refusal_of machine.now.scope.now (view goal.now.value) ≡ None }
    ensures before { out.new.before ≡ out.old.before }
    ensures fault { out.new.fault ≡ out.old.fault }
    ensures gives { GivesGoal D.table machine.now guard goal.now out.old out.new result }
{
    let unit = GoalUnit {
        place: goal.place,
        guard,
    };
    let meets = Meets {
        unit: goal.place,
        signals: machine.registers.len(),
    };
    let bits = value_bits::<D>(alloc, machine.scope, &goal.value, meets, &mut out.exprs)?;
    let names = machine.scope.scope();
    for index in 0..machine.registers.len() {
        let aim = machine.registers[index];
        give_register(names, unit, aim, bits[index], out)?;
    }
    Ok(())
}

/// A goal without the statements after it.
pub(crate) fn walk_value<D: Device>(
    alloc: Global,
    machine: &Machine<'_, D>,
    guard: Guard,
    goal: &Goal,
    out: &mut Walked,
) -> Result<(), OutOfMemory>
    requires signals { AreNamed (length (entries_of machine.now.scope.now)) machine.now.registers.now }
    requires guard { guard.when.0 < length (arena out.old.exprs) }
    ensures walks { OnOk result (WalksValue D.table machine.now guard goal.now out.old out.new) }
    ensures stands { StandsValue D.table machine.now guard goal.now out.old out.new }
{
    let value = machine.scope.scope().check(alloc, &goal.value)?;
    let fault = refuse_value(goal.place, machine.registers.len(), value);
    if out.refuse(fault) {
        return Ok(());
    }
    let made = give_goal::<D>(alloc, machine, guard, goal, out);
    out.keep_limit(made)
}
