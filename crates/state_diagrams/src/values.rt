//! The values of states.

ghost use Rattle.std.specs.Prelude.{◌≡◌, ◌==◌, ◌≤◌, ◌^◌, ℕ, nat_lt, length, IfOk};
ghost use Rattle.state_diagrams.specs.Prelude.{list_any, view_state, context_for};
ghost use Rattle.state_diagrams.specs.{IsState, listed_if, signals_of};

use crate::machine::Machine;
use crate::numbers::state_number;
use abel_tree::State;
use pld_base::OutOfMemory;
use pld_device::Device;
use set_expr::SectionFault;
use std::alloc::Global;

/// What is found of the value of a state: its refusal, or its number.
#[derive(Clone, Copy, PartialEq, Eq)]
pub(crate) struct StateFound {
    pub number: u32,
    pub fault: Option<SectionFault>,
}

/// A number is less than 2 to the power of so many registers.
fn fits(number: u32, width: usize) -> bool
    requires { width ≤ 32 }
    ensures { result ≡ nat_lt number (2 ^ width) }
{
    (number as u64) < 1u64 << width
}

/// A number is one of these.
fn is_listed(listed: &[u32], number: u32) -> bool
    ensures { result ≡ list_any (λ (m : ℕ). m == number) listed.now }
{
    listed.iter().any(|other| *other == number)
}

/// The value of a state after those that are listed: its refusal, or its number, which then is listed.
pub(crate) fn check_value<D: Device>(
    alloc: Global,
    machine: &Machine<'_, D>,
    listed: &mut Vec<u32>,
    state: &State,
) -> Result<StateFound, OutOfMemory>
    requires few { length machine.now.registers.now ≤ 32 }
    ensures state { IfOk result (λ f. IsState (context_for D.table machine.now.scope.now) (length (signals_of machine.now.registers.now)) listed.old.items (view_state state.now) f) }
    ensures listed { IfOk result (λ f. listed.new.items ≡ listed_if f.fault listed.old.items f.number) }
{
    let found = machine.scope.scope().check(alloc, &state.value)?;
    if found.fault.is_some() {
        return Ok(StateFound {
            number: 0,
            fault: found.fault,
        });
    }
    let bad = StateFound {
        number: 0,
        fault: Some(SectionFault::BadState(state.place)),
    };
    if found.special.is_some() || machine.scope.reads_signal(alloc, &state.value)? {
        return Ok(bad);
    }
    let number = state_number::<D>(alloc, machine.scope, &state.value)?;
    if !fits(number, machine.registers.len()) || is_listed(listed, number) {
        return Ok(bad);
    }
    listed.push(number)?;
    Ok(StateFound {
        number,
        fault: None,
    })
}
