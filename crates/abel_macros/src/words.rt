//! Names, numbers and signs ahead, read.

ghost use Rattle.std.specs.Prelude.{◌≡◌, ◌+◌, ◌<◌, ◌≤◌, length, take, drop, OnOk, IfOk, true, false, Some, None, IfSome, IfNone};
ghost use Rattle.abel_macros.specs.Prelude.{ahead};
ghost use Rattle.abel_macros.specs.Gaps as spec;
ghost use Rattle.abel_macros.specs.Rules as rules;

use crate::gaps::skip_gap;
use crate::lengths::{number_len, word_len};
use crate::tokens::sign_at;
use std::alloc::{AllocError, Global};
use text_pieces::Ahead;

/// Reads the next bytes.
pub fn read(alloc: Global, at: &mut Ahead, count: usize) -> Result<Vec<u8>, AllocError>
    requires { count ≤ length (ahead at.old) }
    ensures bytes { IfOk result (λ w. w.items ≡ take count (ahead at.old)) }
    ensures ahead { OnOk result (ahead at.new ≡ drop count (ahead at.old)) }
    ensures whole { at.new.whole ≡ at.old.whole }
    ensures passed { OnOk result (at.new.passed ≡ at.old.passed + count) }
    ensures further { at.old.passed ≤ at.new.passed }
{
    let mut bytes = Vec::new(alloc);
    let mut left = count;
    'bytes: while left > 0 {
        let Some(byte) = at.step() else {
            return Ok(bytes);
        };
        bytes.push(byte)?;
        left -= 1;
    }
    Ok(bytes)
}

/// Reads a name or a keyword, if one is ahead.
#[tactic(auto, using(crate::proofs::Behind::some_read, crate::proofs::Behind::none_read))]
pub fn read_word(alloc: Global, at: &mut Ahead) -> Result<Option<Vec<u8>>, AllocError>
    ensures word { IfOk result (λ o. IfSome o (λ w. spec.word (ahead at.old) ≡ Some (ahead at.new))) }
    ensures bytes { IfOk result (λ o. IfSome o (λ w. w.items ≡ spec.before (ahead at.old) (ahead at.new))) }
    ensures none { IfOk result (λ o. IfNone o (spec.word (ahead at.old) ≡ None)) }
    ensures same { IfOk result (λ o. IfNone o (at.new ≡ at.old)) }
    ensures whole { at.new.whole ≡ at.old.whole }
    ensures further { at.old.passed ≤ at.new.passed }
    ensures some { IfOk result (λ o. IfSome o (λ w. at.old.passed < at.new.passed)) }
{
    let count = word_len(at);
    if count == 0 {
        return Ok(None);
    }
    let word = read(alloc, at, count)?;
    Ok(Some(word))
}

/// Reads a name, blanks and comments before it passed over.
pub fn read_name(alloc: Global, at: &mut Ahead) -> Result<Option<Vec<u8>>, AllocError>
    ensures some { IfOk result (λ o. IfSome o (λ w. spec.name (ahead at.old) ≡ Some (w.items, ahead at.new))) }
    ensures none { IfOk result (λ o. IfNone o (spec.name (ahead at.old) ≡ None)) }
    ensures whole { at.new.whole ≡ at.old.whole }
    ensures further { at.old.passed ≤ at.new.passed }
{
    skip_gap(at);
    read_word(alloc, at)
}

/// Reads a number, if one is ahead.
#[tactic(auto, using(crate::proofs::Behind::some_read, crate::proofs::Behind::none_read))]
pub fn read_number(alloc: Global, at: &mut Ahead) -> Result<Option<Vec<u8>>, AllocError>
    ensures number { IfOk result (λ o. IfSome o (λ w. spec.number (ahead at.old) ≡ Some (ahead at.new))) }
    ensures bytes { IfOk result (λ o. IfSome o (λ w. w.items ≡ spec.before (ahead at.old) (ahead at.new))) }
    ensures none { IfOk result (λ o. IfNone o (spec.number (ahead at.old) ≡ None)) }
    ensures same { IfOk result (λ o. IfNone o (at.new ≡ at.old)) }
    ensures whole { at.new.whole ≡ at.old.whole }
    ensures further { at.old.passed ≤ at.new.passed }
{
    let count = number_len(at);
    if count == 0 {
        return Ok(None);
    }
    let number = read(alloc, at, count)?;
    Ok(Some(number))
}

/// Reads the sign ahead, blanks and comments before it passed over; without a sign nothing is read.
pub fn read_sign(alloc: Global, at: &mut Ahead) -> Result<Vec<u8>, AllocError>
    ensures sign { IfOk result (λ s. s.items ≡ spec.sign (spec.gap (ahead at.old))) }
    ensures ahead { OnOk result (ahead at.new ≡ spec.behind_sign (ahead at.old)) }
    ensures whole { at.new.whole ≡ at.old.whole }
    ensures further { at.old.passed ≤ at.new.passed }
{
    skip_gap(at);
    let count = sign_at(at);
    read(alloc, at, count)
}

/// Passes this sign, blanks and comments before it passed over, if it is ahead.
pub fn skip_sign(alloc: Global, at: &mut Ahead, sign: &[u8]) -> Result<bool, AllocError>
    ensures yes { IfOk result (λ o. o ≡ true → rules.past_sign sign.now (ahead at.old) ≡ Some (ahead at.new)) }
    ensures no { IfOk result (λ o. o ≡ false → rules.past_sign sign.now (ahead at.old) ≡ None) }
    ensures whole { at.new.whole ≡ at.old.whole }
    ensures further { at.old.passed ≤ at.new.passed }
{
    let found = read_sign(alloc, at)?;
    Ok(found.as_slice() == sign)
}
