//! The sides of headers of vectors.

ghost use Rattle.std.specs.Prelude.{◌≡◌, IfOk};
ghost use Rattle.abel_vectors.specs.Prelude.{list_all, entries_of, view, Context};
ghost use Rattle.truth_tables.specs.EntryTerms.{IsOver};
ghost use Rattle.abel_vectors.specs.{IsSide, is_pin_or_unknown};

use crate::pins::pin_at;
use abel_tree::Expr;
use pld_base::{OutOfMemory, Place};
use set_expr::{Scope, SectionFault};
use std::alloc::Global;
use truth_tables::header_signals;

/// Whether each position is X or a pin.
fn are_pins_or_unknown(scope: &Scope<'_>, signals: &[Option<usize>]) -> bool
    ensures { result ≡ list_all (is_pin_or_unknown (entries_of scope.now)) signals.now }
{
    signals.iter().all(|signal| signal.is_none() || pin_at(scope, *signal).is_some())
}

/// The side of a header that is at this place: its first refusal, or its pins from the left as numbers of names, None at
/// X.
pub fn read_side(
    alloc: Global,
    scope: &Scope<'_>,
    place: Place,
    side: &Expr,
) -> Result<Result<Vec<Option<usize>>, SectionFault>, OutOfMemory>
    ensures { IfOk result (λ s. (d : Context) → IsOver scope.now d → IsSide d place (view side.now) s) }
{
    let found = scope.check(alloc, side)?;
    if let Some(fault) = found.fault {
        return Ok(Err(fault));
    }
    let bad = SectionFault::BadVector(place);
    let named = header_signals(alloc, scope, side)?;
    match named {
        None => Ok(Err(bad)),
        Some(signals) => {
            if are_pins_or_unknown(scope, signals.as_slice()) {
                Ok(Ok(signals))
            } else {
                Ok(Err(bad))
            }
        }
    }
}
