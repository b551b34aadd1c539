//! Operators on values as bits.

ghost use Rattle.std.specs.Prelude.{ℕ, Bool, List, false};
ghost use Rattle.expr_bits.specs.Prelude.{arena, Value, unary_value};
ghost use Rattle.expr_bits.specs.{Makes, HasForm, HasUnknown, MeetsAs, related_part, computed_part, Part, IsPart, Stands, under_part, both_part, computed_value};

use crate::compare::{Compared, kept_relation};
use crate::forms::{Bits, Form, number_bits, one_bit};
use crate::meeting::{dropped, meet_word, width_of_both};
use crate::word_operators::{operator_word, unary_word};
use abel_tree::{Binary, Unary};
use bit_expr::{ExprFault, Exprs};
use pld_base::ListOf;
use set_expr::{is_relation, number_of, number_under};
use std::alloc::Global;

/// The form of a complement, or of two's complement.
fn form_under(sign: Unary, form: Form) -> Form
    ensures form { (v : Value) (k : ℕ) → HasForm form v k → HasForm result (unary_value sign v) k }
    ensures unknown { (v : Value) (xs : List Bool) → HasUnknown form v xs → HasUnknown result (unary_value sign v) xs }
{
    match form {
        Form::Number(number) => Form::Number(number_under(sign, number)),
        Form::Single => Form::Single,
        Form::Set => Form::Set,
    }
}

/// The complement of a value, or two's complement.
pub fn under(alloc: Global, exprs: &mut Exprs, sign: Unary, inner: Bits) -> Result<Bits, ExprFault>
    requires { Stands (arena exprs.old) inner }
    ensures { (p : Part) → IsPart (arena exprs.old) inner p → Makes IsPart exprs.old exprs.new result (under_part sign p) }
{
    let word = unary_word(alloc, exprs, sign, inner.word.as_slice())?;
    Ok(Bits {
        form: form_under(sign, inner.form),
        word: ListOf::from_vec(word),
        unknown: inner.unknown,
    })
}

/// A relation of two values.
fn related(
    alloc: Global,
    exprs: &mut Exprs,
    sign: Binary,
    left: &Bits,
    right: &Bits,
) -> Result<Bits, ExprFault>
    requires left { Stands (arena exprs.old) left.now }
    requires right { Stands (arena exprs.old) right.now }
    ensures { (p q : Part) → IsPart (arena exprs.old) left.now p → IsPart (arena exprs.old) right.now q → Makes IsPart exprs.old exprs.new result (related_part sign p q) }
{
    let width = width_of_both(left, right);
    let first = meet_word(alloc, left, width)?;
    let second = meet_word(alloc, right, width)?;
    let flags = dropped(alloc, left, right, width)?;
    let words = Compared {
        dropped: flags.as_slice(),
        first: first.as_slice(),
        second: second.as_slice(),
    };
    let bit = kept_relation(alloc, exprs, sign, &words)?;
    let bits = one_bit(alloc, bit, false)?;
    Ok(bits)
}

/// The form of two operands that meet.
fn form_of_both(sign: Binary, left: Form, right: Form) -> Form
    ensures { (p q : Part) (j k : ℕ) → HasForm left p.value j → HasForm right q.value k → MeetsAs result (computed_value sign p q) }
{
    match left {
        Form::Set => Form::Set,
        Form::Single => match right {
            Form::Set => Form::Set,
            Form::Single => Form::Single,
            Form::Number(_) => Form::Single,
        },
        Form::Number(first) => match right {
            Form::Set => Form::Set,
            Form::Single => Form::Single,
            Form::Number(second) => Form::Number(number_of(sign, first, second)),
        },
    }
}

/// An operator that is no relation.
fn computed(
    alloc: Global,
    exprs: &mut Exprs,
    sign: Binary,
    left: &Bits,
    right: &Bits,
) -> Result<Bits, ExprFault>
    requires left { Stands (arena exprs.old) left.now }
    requires right { Stands (arena exprs.old) right.now }
    ensures { (p q : Part) → IsPart (arena exprs.old) left.now p → IsPart (arena exprs.old) right.now q → Makes IsPart exprs.old exprs.new result (computed_part sign p q) }
{
    let form = form_of_both(sign, left.form, right.form);
    match form {
        Form::Number(number) => Ok(number_bits(alloc, number)),
        _ => {
            let width = width_of_both(left, right);
            let unknown = vec![in alloc; false; width]?;
            let first = meet_word(alloc, left, width)?;
            let second = meet_word(alloc, right, width)?;
            let word = operator_word(alloc, exprs, sign, first.as_slice(), second.as_slice())?;
            Ok(Bits {
                form,
                word: ListOf::from_vec(word),
                unknown: ListOf::from_vec(unknown),
            })
        }
    }
}

/// An operator on two values: a relation drops the positions that are X on either side and gives one bit; any other
/// one keeps the shape of both.
pub fn both(
    alloc: Global,
    exprs: &mut Exprs,
    sign: Binary,
    left: &Bits,
    right: &Bits,
) -> Result<Bits, ExprFault>
    requires left { Stands (arena exprs.old) left.now }
    requires right { Stands (arena exprs.old) right.now }
    ensures { (p q : Part) → IsPart (arena exprs.old) left.now p → IsPart (arena exprs.old) right.now q → Makes IsPart exprs.old exprs.new result (both_part sign p q) }
{
    if is_relation(sign) {
        related(alloc, exprs, sign, left, right)
    } else {
        computed(alloc, exprs, sign, left, right)
    }
}
