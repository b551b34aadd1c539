//! Steps over a stack of values.

ghost use Rattle.std.specs.Prelude.{◌≡◌, List, IfOk, OnOk};
ghost use Rattle.expr_bits.specs.Prelude.{ANode, arena, Formula, context_for};
ghost use Rattle.expr_bits.specs.{Makes, Part, IsPart, AreStacked, Standing, top, below, as_set, made_by, left_by};
ghost use Rattle.expr_bits.specs.declared.forms.Form.TheVariants as form;

use crate::forms::{Bits, Form, number_bits, one_bit};
use crate::on_device::OnDevice;
use crate::reading::read;
use crate::sets::{empty_set, with_member};
use crate::value_operators::{both, under};
use crate::work::Step;
use bit_expr::{ExprFault, ExprId, Exprs};
use pld_base::{ListOf, OutOfMemory};
use pld_device::Device;
use std::alloc::Global;

/// Takes the value on top; the number 0 if there isn't one.
pub(crate) fn taken(alloc: Global, values: &mut Vec<Bits>) -> Bits
    ensures top { (fs : List Formula) (ps : List Part) → AreStacked fs values.old.items ps → IsPart fs result (top ps) }
    ensures below { (fs : List Formula) (ps : List Part) → AreStacked fs values.old.items ps → AreStacked fs values.new.items (below ps) }
{
    match values.pop() {
        Some(bits) => bits,
        None => number_bits(alloc, 0),
    }
}

/// The same bits again.
pub(crate) fn copied(alloc: Global, bits: &Bits) -> Result<Bits, OutOfMemory>
    ensures { IfOk result (λ copy. (fs : List Formula) (p : Part) → IsPart fs bits.now p → IsPart fs copy p) }
{
    let word = Vec::from_slice(alloc, bits.word.as_slice())?;
    let unknown = Vec::from_slice(alloc, bits.unknown.as_slice())?;
    Ok(Bits {
        form: bits.form,
        word: ListOf::from_vec(word),
        unknown: ListOf::from_vec(unknown),
    })
}

/// Takes the set on top; one without members if there isn't one.
fn taken_set(alloc: Global, values: &mut Vec<Bits>) -> Bits
    ensures form { result.form ≡ form.Set }
    ensures top { (fs : List Formula) (ps : List Part) → AreStacked fs values.old.items ps → IsPart fs result (as_set (top ps)) }
    ensures below { (fs : List Formula) (ps : List Part) → AreStacked fs values.old.items ps → AreStacked fs values.new.items (below ps) }
{
    let value = taken(alloc, values);
    match value.form {
        Form::Set => value,
        _ => empty_set(alloc),
    }
}

/// What a step makes of the values on top, which it takes.
pub(crate) fn build<D: Device>(
    alloc: Global,
    on: &OnDevice<'_, D>,
    exprs: &mut Exprs,
    step: Step,
    values: &mut Vec<Bits>,
) -> Result<Bits, ExprFault>
    requires values { Standing (arena exprs.old) values.old.items }
    ensures made { (ps : List Part) → AreStacked (arena exprs.old) values.old.items ps
        → Makes IsPart exprs.old exprs.new result (made_by (context_for D.table on.now.scope.now) step ps) }
    ensures left { OnOk result ((ns : List ANode) (ps : List Part) → AreStacked (arena ns) values.old.items ps → AreStacked (arena ns) values.new.items (left_by step ps)) }
{
    match step {
        Step::Number(number) => Ok(number_bits(alloc, number)),
        Step::Unknown => Ok(one_bit(alloc, ExprId(0), true)?),
        Step::Read(signal, extension) => read::<D>(alloc, on, exprs, signal, extension),
        Step::Under(sign) => {
            let inner = taken(alloc, values);
            under(alloc, exprs, sign, inner)
        }
        Step::Both(sign) => {
            let right = taken(alloc, values);
            let left = taken(alloc, values);
            both(alloc, exprs, sign, &left, &right)
        }
        Step::Empty => Ok(empty_set(alloc)),
        Step::Member => {
            let member = taken(alloc, values);
            let others = taken_set(alloc, values);
            Ok(with_member(alloc, &member, others)?)
        }
    }
}
