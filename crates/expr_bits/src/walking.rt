//! The walk over an expression.

ghost use Rattle.std.specs.Prelude.{◌≡◌};
ghost use Rattle.expr_bits.specs.Prelude.{entries_of, Term, context_for};
ghost use Rattle.expr_bits.specs.{Makes, IsPart, task_of, Push, term_part, AreRows};

use crate::building::{build, copied, taken};
use crate::expanding::{expand, expand_members};
use crate::forms::Bits;
use crate::on_device::OnDevice;
use crate::rows::{Row, bits_at};
use crate::work::{Work, declared_work};
use bit_expr::{ExprFault, Exprs};
use pld_device::Device;
use std::alloc::Global;

/// The bits of an expression, by what is kept of the names that have rows, in just the counted nodes. Takes no stack,
/// however deep or long the expression is.
pub(crate) fn walk<'a, D: Device>(
    alloc: Global,
    on: &OnDevice<'a, D>,
    rows: &[Row],
    whole: Work<'a>,
    exprs: &mut Exprs,
) -> Result<Bits, ExprFault>
    requires rows { AreRows (entries_of on.now.scope.now) (context_for D.table on.now.scope.now) 0 rows.now }
    ensures { (t : Term) → task_of (entries_of on.now.scope.now) whole.entry ≡ Push t
        → Makes IsPart exprs.old exprs.new result (term_part (context_for D.table on.now.scope.now) t) }
{
    let mut work = Vec::new(alloc);
    let mut values = Vec::new(alloc);
    work.push(whole)?;
    'turns: while let Some(next) = work.pop() {
        match next {
            Work::Whole(expr, outer) => work = expand(on.scope, expr, outer, work)?,
            Work::Members(members, outer) => {
                work = expand_members(alloc, on.scope, members, outer, work)?;
            }
            Work::Named(number, extension) => match bits_at(rows, number, extension) {
                Some(bits) => values.push(copied(alloc, bits)?)?,
                None => work.push(declared_work(on.scope, number, extension))?,
            },
            Work::Do(step) => {
                let bits = build::<D>(alloc, on, exprs, step, &mut values)?;
                values.push(bits)?;
            }
        }
    }
    Ok(taken(alloc, &mut values))
}
