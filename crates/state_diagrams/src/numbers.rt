//! The number of an expression that reads no signal.

ghost use Rattle.std.specs.Prelude.{◌≡◌, ◌≤◌, false, None, length, map, IfOk};
ghost use Rattle.state_diagrams.specs.Prelude.{arena, entries_of, view, number_with, formula_value, known_of, term_of, refusal_of, context_for, reads_signal, bits_at};
ghost use Rattle.set_expr.specs.Answer.{AreIn};
ghost use Rattle.state_diagrams.specs.{all_zero, state_number};

use abel_tree::Expr;
use bit_expr::{ExprFault, ExprId, Exprs};
use pld_base::{OutOfMemory, Point};
use pld_device::Device;
use section_targets::SectionScope;
use set_expr::Shape;
use std::alloc::Global;

/// The number of positions, the rightmost first, if all signals are 0; X counts as 0. Calls go as deep as there are
/// positions.
fn places_number(exprs: &Exprs, places: &[Option<ExprId>]) -> u32
    requires inside { AreIn (length (arena exprs.now)) places.now }
    requires few { length places.now ≤ 32 }
    ensures { result ≡ number_with (map (formula_value all_zero) (bits_at (arena exprs.now) places.now)) }
{
    let nowhere = Point {
        pins: 0,
        q: 0,
        nodes: 0,
    };
    match places.split_first() {
        None => 0,
        Some((place, higher)) => {
            let number = 2 * places_number(exprs, higher);
            match place {
                Some(id) if exprs.eval(*id, &nowhere) => number + 1,
                _ => number,
            }
        }
    }
}

/// The number of an expression that reads no signal and of which nothing is refused. Its bits are built in an arena of
/// their own. They make no node, so that no limit is passed.
pub(crate) fn state_number<D: Device>(
    alloc: Global,
    scope: &SectionScope<'_, D>,
    value: &Expr,
) -> Result<u32, OutOfMemory>
    requires accepted { refusal_of scope.now (view value.now) ≡ None }
    requires still { reads_signal (term_of (known_of (entries_of scope.now)) (view value.now)) ≡ false }
    ensures { IfOk result (λ n. n ≡ state_number (context_for D.table scope.now) (view value.now)) }
{
    let mut exprs = Exprs::new(alloc);
    match scope.bits(alloc, value, &mut exprs) {
        Ok(shaped) => match shaped.shape {
            Shape::Number(number) => Ok(number),
            _ => Ok(places_number(&exprs, shaped.places.as_slice())),
        },
        Err(ExprFault::NodeLimit) => unreachable!(),
        Err(ExprFault::OutOfMemory) => Err(OutOfMemory),
    }
}
