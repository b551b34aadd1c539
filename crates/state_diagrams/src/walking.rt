//! The walk over state diagrams.

ghost use Rattle.std.specs.Prelude.{◌≡◌, ◌≤◌, Some, IfOk, OnOk, length, map};
ghost use Rattle.state_diagrams.specs.Prelude.{entries_of, view_state, AreNamed};
ghost use Rattle.state_diagrams.specs.{StandsDiagram, StandsHeader, StandsOthers, WalksDiagram, WalksHeader, WalksOthers};

use crate::machine::Machine;
use crate::matches::matches_beside;
use crate::registers::check_registers;
use crate::states::walk_states;
use abel_tree::{Diagram, State};
use pld_base::{OutOfMemory, Place};
use pld_device::Device;
use section_targets::{Aim, SectionScope, Walked};
use set_expr::Guard;
use std::alloc::{AllocError, Global};
use truth_tables::{Assigning, give_no_matches};

/// Registers as the outputs of a header without X.
fn outputs_of(alloc: Global, registers: &[Aim]) -> Result<Vec<Option<Aim>>, AllocError>
    ensures { IfOk result (λ outputs. outputs.items ≡ map Some registers.now) }
{
    registers.iter().map(|aim| Some(*aim)).collect(alloc)
}

/// No match for each register, so that each has some contribution of the diagram.
fn walk_header<D: Device>(
    alloc: Global,
    machine: &Machine<'_, D>,
    guard: Guard,
    unit: Place,
    out: &mut Walked,
) -> Result<(), OutOfMemory>
    requires signals { AreNamed (length (entries_of machine.now.scope.now)) machine.now.registers.now }
    ensures walks { OnOk result (WalksHeader D.table machine.now guard out.old out.new) }
    ensures stands { StandsHeader D.table machine.now guard out.old out.new }
{
    if out.fault.is_some() {
        return Ok(());
    }
    let outputs = outputs_of(alloc, machine.registers)?;
    let assigning = Assigning {
        unit,
        guard,
        clocked: true,
    };
    let names = machine.scope.scope();
    let made = give_no_matches(names, assigning, &outputs, &mut out.exprs, &mut out.list);
    out.keep_limit(made)
}

/// The states, and the matches of signals that are no registers.
fn walk_others<D: Device>(
    alloc: Global,
    machine: &Machine<'_, D>,
    guard: Guard,
    states: &[State],
    out: &mut Walked,
) -> Result<(), OutOfMemory>
    requires signals { AreNamed (length (entries_of machine.now.scope.now)) machine.now.registers.now }
    requires few { length machine.now.registers.now ≤ 32 }
    ensures walks { OnOk result (WalksOthers D.table machine.now guard (map view_state states.now) out.old out.new) }
    ensures stands { StandsOthers D.table machine.now guard (map view_state states.now) out.old out.new }
{
    let start = out.list.len();
    let bits = walk_states::<D>(alloc, machine, guard, states, out)?;
    if out.fault.is_some() {
        return Ok(());
    }
    let given = out.list.as_slice();
    let mut matches = matches_beside(alloc, machine.registers, &bits, given, start)?;
    out.list.append(&mut matches)?;
    Ok(())
}

/// A state diagram after what was walked before: its registers, which are the one unit if they are refused, and its
/// states. Of the guard count its block and whether that is don't-care. Calls go as deep as the nestings of transitions,
/// statements, sets and parentheses.
///
/// ABEL-HDL Reference Manual, state diagrams.
pub fn walk_diagram<D: Device>(
    alloc: Global,
    scope: &SectionScope<'_, D>,
    guard: Guard,
    diagram: &Diagram,
    out: &mut Walked,
) -> Result<(), OutOfMemory>
    ensures walks { OnOk result (WalksDiagram D.table scope.now guard diagram.now out.old out.new) }
    ensures stands { StandsDiagram D.table scope.now guard diagram.now out.old out.new }
{
    let side = check_registers::<D>(alloc, scope, &diagram.registers, &mut out.before)?;
    match side.fault {
        Some(fault) => {
            out.refuse(Some(fault));
            Ok(())
        }
        None => {
            let machine = Machine {
                scope,
                registers: side.aims.as_slice(),
            };
            walk_header::<D>(alloc, &machine, guard, diagram.place, out)?;
            walk_others::<D>(alloc, &machine, guard, diagram.states.as_slice(), out)
        }
    }
}
