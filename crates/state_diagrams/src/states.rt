//! The walk over the states of a diagram, each under its guard.

ghost use Rattle.std.specs.Prelude.{◌≡◌, ◌<◌, ◌≤◌, List, [], ℕ, None, length, map, IfOk, OnOk};
ghost use Rattle.state_diagrams.specs.Prelude.{arena, entries_of, view_state, AreBits, IsBit, context_for, AreNamed, StillStands};
ghost use Rattle.state_diagrams.specs.{signals_of, StandsStates, WalksStates, WalksUnit, state_bit, state_bits, IsState};

use crate::arms::walk_arms;
use crate::guards::state_guard;
use crate::machine::Machine;
use crate::values::{StateFound, check_value};
use abel_tree::State;
use bit_expr::ExprId;
use equations::walk_statements;
use pld_base::OutOfMemory;
use pld_device::Device;
use section_targets::Walked;
use set_expr::Guard;
use std::alloc::Global;

/// The unit of a state: its bit; where something is refused any bit serves.
fn walk_unit<D: Device>(
    alloc: Global,
    machine: &Machine<'_, D>,
    state: &State,
    found: StateFound,
    out: &mut Walked,
) -> Result<ExprId, OutOfMemory>
    ensures walks { IfOk result (λ id. (listed : List ℕ) → IsState (context_for D.table machine.now.scope.now) (length (signals_of machine.now.registers.now)) listed (view_state state.now) found → WalksUnit D.table machine.now listed (view_state state.now) out.old out.new) }
    ensures stands { StillStands [] [] out.old out.new }
    ensures inside { IfOk result (λ id. id.0 < length (arena out.new.exprs)) }
    ensures bit { IfOk result (λ id. (listed : List ℕ) → IsState (context_for D.table machine.now.scope.now) (length (signals_of machine.now.registers.now)) listed (view_state state.now) found → out.new.fault ≡ None → IsBit (arena out.new.exprs) id (state_bit (context_for D.table machine.now.scope.now) machine.now.registers.now (view_state state.now))) }
{
    if out.refuse(found.fault) {
        return Ok(ExprId(1));
    }
    match state_guard::<D>(
        machine.scope,
        machine.registers,
        found.number,
        state.place,
        &mut out.exprs,
    ) {
        Ok(bit) => Ok(bit),
        Err(fault) => {
            out.keep_limit(Err(fault))?;
            Ok(ExprId(1))
        }
    }
}

/// The states one after another, each as its unit and what is in it, under its bit: their bits.
pub(crate) fn walk_states<D: Device>(
    alloc: Global,
    machine: &Machine<'_, D>,
    guard: Guard,
    states: &[State],
    out: &mut Walked,
) -> Result<Vec<ExprId>, OutOfMemory>
    requires signals { AreNamed (length (entries_of machine.now.scope.now)) machine.now.registers.now }
    requires few { length machine.now.registers.now ≤ 32 }
    ensures walks { IfOk result (λ ids. WalksStates D.table machine.now guard [] (map view_state states.now) out.old out.new) }
    ensures stands { StandsStates D.table machine.now guard (map view_state states.now) out.old out.new }
    ensures bits { IfOk result (λ ids. out.new.fault ≡ None → AreBits (arena out.new.exprs) ids.items (state_bits (context_for D.table machine.now.scope.now) machine.now.registers.now (map view_state states.now))) }
{
    let mut listed = Vec::new(alloc);
    let mut bits = Vec::new(alloc);
    for state in states {
        let found = check_value::<D>(alloc, machine, &mut listed, state)?;
        let when = walk_unit::<D>(alloc, machine, state, found, out)?;
        let inside = Guard { when, ..guard };
        let stmts = state.statements.as_slice();
        walk_statements::<D>(alloc, machine.scope, inside, stmts, out)?;
        let arms = state.transitions.as_slice();
        walk_arms::<D>(alloc, machine, inside, arms, out)?;
        bits.push(when)?;
    }
    Ok(bits)
}
