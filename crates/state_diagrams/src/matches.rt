//! Matches beside contributions.

ghost use Rattle.std.specs.Prelude.{◌≡◌, ◌≤◌, ◌++◌, drop, map, IfOk, OnOk, length};
ghost use Rattle.state_diagrams.specs.{signals_of, is_among, is_first, pushed_beside, pushed_for, pushed_if, seen_if};

use abel_tree::Extension;
use bit_expr::ExprId;
use section_targets::Aim;
use set_expr::{Contribution, Gives, Target};
use std::alloc::{AllocError, Global};

/// The signals of registers.
fn signals_of(alloc: Global, registers: &[Aim]) -> Result<Vec<usize>, AllocError>
    ensures { IfOk result (λ signals. signals.items ≡ signals_of registers.now) }
{
    registers.iter().map(|aim| aim.signal).collect(alloc)
}

/// Whether the signal was seen.
fn is_seen(seen: &[usize], signal: usize) -> bool
    ensures { result ≡ is_among seen.now signal }
{
    seen.iter().any(|other| signal == *other)
}

/// Whether it is data to a signal that wasn't seen.
fn is_first(seen: &[usize], given: Contribution) -> bool
    ensures { result ≡ is_first seen.now given }
{
    Extension::is_data(given.target.extension) && !is_seen(seen, given.target.signal)
}

/// Matches beside a contribution, one if each of these bits is 1.
fn matches_at(
    alloc: Global,
    states: &[ExprId],
    given: Contribution,
) -> Result<Vec<Contribution>, AllocError>
    ensures { IfOk result (λ found. found.items ≡ map (pushed_beside given) states.now) }
{
    let target = Target {
        signal: given.target.signal,
        extension: None,
    };
    let at_state = |state: &ExprId| Contribution {
        target,
        what: Gives::Match,
        when: *state,
        ..given
    };
    states.iter().map(at_state).collect(alloc)
}

/// Appends the matches for a contribution, if it is the first data to its signal, which then counts as seen.
fn push_if_first(
    alloc: Global,
    states: &[ExprId],
    given: Contribution,
    seen: &mut Vec<usize>,
    found: &mut Vec<Contribution>,
) -> Result<(), AllocError>
    ensures seen { OnOk result (seen.new.items ≡ seen_if (is_first seen.old.items given) seen.old.items given) }
    ensures found { OnOk result (found.new.items ≡ found.old.items ++ pushed_if (is_first seen.old.items given) states.now given) }
{
    if is_first(seen.as_slice(), given) {
        seen.push(given.target.signal)?;
        found.append(&mut matches_at(alloc, states, given)?)?;
    }
    Ok(())
}

/// For each signal but the registers that some contribution after `start` gives data to, a match if each of these bits is
/// 1, from the first contribution to the signal, which says on the clock or not, complement and place. Registers count as
/// seen from the start.
pub(crate) fn matches_beside(
    alloc: Global,
    registers: &[Aim],
    states: &[ExprId],
    list: &[Contribution],
    start: usize,
) -> Result<Vec<Contribution>, AllocError>
    requires { start ≤ length list.now }
    ensures { IfOk result (λ found. found.items ≡ pushed_for states.now (signals_of registers.now) (drop start list.now)) }
{
    let mut seen = signals_of(alloc, registers)?;
    let mut found = Vec::new(alloc);
    for index in start..list.len() {
        push_if_first(alloc, states, list[index], &mut seen, &mut found)?;
    }
    Ok(found)
}
