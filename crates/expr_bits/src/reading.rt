//! The bits of what signals read.

ghost use Rattle.std.specs.Prelude.{◌≡◌};
ghost use Rattle.expr_bits.specs.Prelude.{Context, make_source, source_of, IsContextOf};
ghost use Rattle.abel_meaning.specs.Terms as term;
ghost use Rattle.expr_bits.specs.{Makes, ShowsOne, IsPart, HasLeaf, view_reading, term_part};

use crate::forms::{Bits, one_bit};
use crate::on_device::OnDevice;
use crate::sources::{Reading, source_of};
use abel_tree::Extension;
use bit_expr::{ExprFault, ExprId, Exprs, Node};
use pld_device::{Device, Loaded};
use set_expr::Scope;
use std::alloc::Global;

/// The bit of what is read: a leaf, with a Not if it reads the complement; 0 makes nothing.
fn source_bit(exprs: &mut Exprs, reading: Option<Reading>) -> Result<ExprId, ExprFault>
    requires { HasLeaf reading }
    ensures { Makes ShowsOne exprs.old exprs.new result (make_source (view_reading reading)) }
{
    match reading {
        Some(Reading { complement, leaf }) => {
            let bit = exprs.add(Node::Leaf(leaf))?;
            if complement {
                exprs.add(Node::Not(bit))
            } else {
                Ok(bit)
            }
        }
        None => Ok(ExprId(0)),
    }
}

/// What the name of a number reads; 0 if there is no such name.
pub(crate) fn signal_source<D: Device>(
    device: &Loaded<D>,
    scope: &Scope<'_>,
    signal: usize,
    extension: Option<Extension>,
) -> Option<Reading>
    ensures source { (d : Context) → IsContextOf D.table scope.now d → view_reading result ≡ source_of d signal extension }
    ensures leaf { HasLeaf result }
{
    scope.are_placed();
    match scope.list().get(signal) {
        Some(declared) => source_of::<D>(device, declared, extension),
        None => None,
    }
}

/// The bit that a signal of this number reads under its extension: the source's leaf, with a Not if it reads the complement.
/// A number that no name has reads 0, and so does a signal without a source.
pub fn read_signal<D: Device>(
    device: &Loaded<D>,
    scope: &Scope<'_>,
    exprs: &mut Exprs,
    signal: usize,
    extension: Option<Extension>,
) -> Result<ExprId, ExprFault>
    ensures { (d : Context) → IsContextOf D.table scope.now d → Makes ShowsOne exprs.old exprs.new result (make_source (source_of d signal extension)) }
{
    let reading = signal_source::<D>(device, scope, signal, extension);
    source_bit(exprs, reading)
}

/// The bits of what a signal reads.
pub(crate) fn read<D: Device>(
    alloc: Global,
    on: &OnDevice<'_, D>,
    exprs: &mut Exprs,
    signal: usize,
    extension: Option<Extension>,
) -> Result<Bits, ExprFault>
    ensures { (d : Context) → IsContextOf D.table on.now.scope.now d → Makes IsPart exprs.old exprs.new result (term_part d (term.Read signal extension)) }
{
    let bit = read_signal::<D>(on.device, on.scope, exprs, signal, extension)?;
    let bits = one_bit(alloc, bit, false)?;
    Ok(bits)
}
