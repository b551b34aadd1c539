//! Loops of signals, and paths from a reset to a register, by the numbers of their names.

ghost use Rattle.std.specs.Prelude.{◌≡◌, ◌<◌, ◌≤◌, ℕ, All, length, map, get_or, IfOk, IfSome, IfNone};
ghost use Rattle.gathering.specs.Prelude.{AreReads, Design, given_formulas, IsSignalLoop, HasNoSignalLoop, IsSignalPath, HasNoSignalPath};
ghost use Rattle.gathering.specs.{AreLeaves, AreLinks, AssignedHaveCells, reset_names};

use crate::chains::{first_loop, path_to_register};
use crate::link::Link;
use bit_expr::Reads;
use pld_base::OutOfMemory;
use std::alloc::Global;

/// The numbers of signals by their places.
fn numbers_at(alloc: Global, signals: &[usize], places: &[u8]) -> Result<Vec<usize>, OutOfMemory>
    requires { All (λ (v : ℕ). v < length signals.now) places.now }
    ensures { IfOk result (λ r. r.items ≡ map (λ (v : ℕ). get_or signals.now v 0) places.now) }
{
    let numbers = places
        .iter()
        .map(|place| signals[*place as usize])
        .collect(alloc)?;
    Ok(numbers)
}

/// Signals by their numbers in the order of declaration, each of which reads the next, and the last the first; the
/// first is the earliest declared of all that lie on such a loop. None if there isn't one.
pub fn signal_loop(
    alloc: Global,
    signals: &[usize],
    links: &[Link],
) -> Result<Option<Vec<usize>>, OutOfMemory>
    requires few { length links.now ≤ 256 }
    requires leaves { AreLeaves links.now }
    requires count { length signals.now ≡ length links.now }
    ensures found { IfOk result (λ r. IfSome r (λ chain. (d : Design) → AssignedHaveCells d.context
        → AreLinks d.context (given_formulas d) signals.now links.now → IsSignalLoop d chain.items)) }
    ensures none { IfOk result (λ r. IfNone r ((d : Design) → AssignedHaveCells d.context
        → AreLinks d.context (given_formulas d) signals.now links.now → HasNoSignalLoop d)) }
{
    match first_loop(alloc, links)? {
        None => Ok(None),
        Some(chain) => Ok(Some(numbers_at(alloc, signals, &chain)?)),
    }
}

/// Signals by their numbers: the first is read by the leaves of a reset, each reads the next, and the last is a
/// register. None if there aren't any.
pub fn reset_path(
    alloc: Global,
    signals: &[usize],
    links: &[Link],
    reset: &Reads,
) -> Result<Option<Vec<usize>>, OutOfMemory>
    requires few { length links.now ≤ 256 }
    requires leaves { AreLeaves links.now }
    requires count { length signals.now ≡ length links.now }
    ensures found { IfOk result (λ r. IfSome r (λ path. (d : Design) (s : ℕ) → AssignedHaveCells d.context
        → AreLinks d.context (given_formulas d) signals.now links.now → AreReads (reset_names d s) reset.now
        → IsSignalPath d s path.items)) }
    ensures none { IfOk result (λ r. IfNone r ((d : Design) (s : ℕ) → AssignedHaveCells d.context
        → AreLinks d.context (given_formulas d) signals.now links.now → AreReads (reset_names d s) reset.now
        → HasNoSignalPath d s)) }
{
    match path_to_register(alloc, links, reset)? {
        None => Ok(None),
        Some(path) => Ok(Some(numbers_at(alloc, signals, &path)?)),
    }
}
