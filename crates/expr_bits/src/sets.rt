//! Sets of values as bits.

ghost use Rattle.std.specs.Prelude.{◌≡◌, List, length, IfOk};
ghost use Rattle.expr_bits.specs.Prelude.{Node, arena, Formula, Value, member_width};
ghost use Rattle.expr_bits.specs.{IsPart, Part, joined_part, no_part, HasForm};
ghost use Rattle.expr_bits.specs.declared.forms.Form.TheVariants as form;

use crate::forms::{Bits, Form};
use crate::meeting::{meet_unknown, meet_word};
use pld_base::{ListOf, OutOfMemory};
use std::alloc::Global;

/// A set without members. Takes no memory.
pub fn empty_set(alloc: Global) -> Bits
    ensures form { result.form ≡ form.Set }
    ensures bits { (fs : List Formula) → IsPart fs result no_part }
{
    Bits {
        form: Form::Set,
        word: ListOf::from_vec(Vec::new(alloc)),
        unknown: ListOf::from_vec(Vec::new(alloc)),
    }
}

/// How many positions a value has as a member of a set.
fn member_width(member: &Bits) -> usize
    ensures { (v : Value) → HasForm member.now.form v (length member.now.word) → result ≡ member_width v.shape }
{
    match member.form {
        Form::Set => member.word.as_slice().len(),
        _ => 1,
    }
}

/// A member before the others of a set.
pub fn with_member(alloc: Global, member: &Bits, others: Bits) -> Result<Bits, OutOfMemory>
    requires { others.form ≡ form.Set }
    ensures form { IfOk result (λ b. b.form ≡ form.Set) }
    ensures bits { IfOk result (λ b. (ns : List Node) (p q : Part) → IsPart (arena ns) member.now p → IsPart (arena ns) others q → IsPart (arena ns) b (joined_part p q)) }
{
    let width = member_width(member);
    let bits = meet_word(alloc, member, width)?;
    let flags = meet_unknown(alloc, member, width)?;
    let mut word = others.word.into_vec();
    word.extend_from_slice(bits.as_slice())?;
    let mut unknown = others.unknown.into_vec();
    unknown.extend_from_slice(flags.as_slice())?;
    Ok(Bits {
        form: Form::Set,
        word: ListOf::from_vec(word),
        unknown: ListOf::from_vec(unknown),
    })
}
