//! The bit of a state: a literal for each register, its bare name plain or complemented.

ghost use Rattle.state_diagrams.specs.Prelude.{context_for};
ghost use Rattle.state_diagrams.specs.{MakesBit, MakesGuard, bare_read};

use bit_expr::{ExprFault, ExprId, Exprs, Node};
use expr_bits::read_signal;
use pld_base::Place;
use pld_device::Device;
use section_targets::{Aim, SectionScope, add_node, guard_else};
use set_expr::SectionFault;

/// The bit that the bare name of a signal reads, as a part of the unit at a place.
fn bare_bit<D: Device>(
    scope: &SectionScope<'_, D>,
    signal: usize,
    unit: Place,
    exprs: &mut Exprs,
) -> Result<ExprId, SectionFault>
    ensures { MakesBit unit (bare_read (context_for D.table scope.now) signal) exprs.old exprs.new result }
{
    match read_signal::<D>(scope.device(), scope.scope(), exprs, signal, None) {
        Ok(id) => Ok(id),
        Err(ExprFault::NodeLimit) => Err(SectionFault::NodeLimit(unit)),
        Err(ExprFault::OutOfMemory) => Err(SectionFault::OutOfMemory),
    }
}

/// The bit that is 1 if the bare name of each register reads its digit of a number, from the left, as a part of the unit at
/// a place. Calls go as deep as there are registers.
///
/// The digits left of the number are 0, and those that no register holds don't count. `NodeLimit` is at the unit's place.
/// ABEL-HDL Reference Manual, state diagrams.
pub(crate) fn state_guard<D: Device>(
    scope: &SectionScope<'_, D>,
    registers: &[Aim],
    number: u32,
    unit: Place,
    exprs: &mut Exprs,
) -> Result<ExprId, SectionFault>
    ensures { MakesGuard D.table scope.now registers.now number unit exprs.old exprs.new result }
{
    match registers.split_last() {
        None => Ok(ExprId(1)),
        Some((last, others)) => {
            let found = state_guard::<D>(scope, others, number / 2, unit, exprs)?;
            let bit = bare_bit::<D>(scope, last.signal, unit, exprs)?;
            let digit = number % 2 == 1;
            if digit {
                add_node(exprs, Node::And(found, bit), unit)
            } else {
                guard_else(exprs, found, bit, unit)
            }
        }
    }
}
