//! How long the other tokens ahead are.

ghost use Rattle.std.specs.Prelude.{◌≡◌, ◌<◌, ◌≤◌, length, false, None};
ghost use Rattle.abel_macros.specs.Prelude.{ahead, no_byte, letter_special, voltage_special, shaped_len, quoted_len, special_len, listed_len, signs};
ghost use Rattle.abel_macros.specs.Gaps as spec;
ghost use Rattle.abel_macros.specs.Rules as rules;

use crate::gaps::skip_byte;
use crate::lengths::{extension_len, larger, number_len};
use abel_lexer::{letter_special_len, sign_len, voltage_special_len};
use text_pieces::Ahead;

/// How long the rest of a string is, if it ends.
fn quoted_rest(at: &Ahead) -> usize
    ensures value { result ≡ quoted_len (ahead at.now) }
    ensures within { result ≤ length (ahead at.now) }
{
    at.fits();
    let mut look = at.fork();
    if !skip_byte(&mut look, b'\'') {
        return 0;
    }
    let mut end = 1;
    let mut taken = false;
    'bytes: while let Some(byte) = look.step() {
        end += 1;
        if !taken && byte == b'\'' {
            return end;
        }
        taken = !taken && byte == b'\\';
    }
    0
}

/// How long the string ahead is, which is the whole text if it has no end.
pub fn string_len(at: &Ahead) -> usize
    ensures value { result ≡ spec.string_len (ahead at.now) }
    ensures within { result ≤ length (ahead at.now) }
{
    let count = quoted_rest(at);
    if count > 0 { count } else { at.left() }
}

/// How long the letter between dots is that is ahead; 0 if there isn't one.
fn letter_special_at(at: &Ahead) -> usize
    ensures value { result ≡ shaped_len letter_special no_byte (ahead at.now) }
    ensures within { result ≤ length (ahead at.now) }
{
    let mut look = at.fork();
    let Some(first) = look.step() else {
        return 0;
    };
    let Some(second) = look.step() else {
        return 0;
    };
    let Some(third) = look.step() else {
        return 0;
    };
    letter_special_len(&[first, second, third])
}

/// How long the `.SV`, digit and dot are that are ahead; 0 if they aren't there.
fn voltage_special_at(at: &Ahead) -> usize
    ensures value { result ≡ shaped_len voltage_special no_byte (ahead at.now) }
    ensures within { result ≤ length (ahead at.now) }
{
    let mut look = at.fork();
    let Some(first) = look.step() else {
        return 0;
    };
    let Some(second) = look.step() else {
        return 0;
    };
    let Some(third) = look.step() else {
        return 0;
    };
    let Some(fourth) = look.step() else {
        return 0;
    };
    let Some(fifth) = look.step() else {
        return 0;
    };
    voltage_special_len(&[first, second, third, fourth, fifth])
}

/// How long the special ahead is; 0 if there isn't one.
fn special_len(at: &Ahead) -> usize
    ensures value { result ≡ special_len (ahead at.now) }
    ensures within { result ≤ length (ahead at.now) }
{
    larger(letter_special_at(at), voltage_special_at(at))
}

/// How long the sign ahead is; 0 if there isn't one.
pub fn sign_at(at: &Ahead) -> usize
    ensures value { result ≡ listed_len signs (ahead at.now) }
    ensures within { result ≤ length (ahead at.now) }
{
    let mut look = at.fork();
    let Some(first) = look.step() else {
        return 0;
    };
    let Some(second) = look.step() else {
        return sign_len(&[first]);
    };
    let Some(third) = look.step() else {
        return sign_len(&[first, second]);
    };
    sign_len(&[first, second, third])
}

/// How long the token ahead is that is no name, no string and no directive; a byte that begins none is
/// taken alone.
#[tactic(auto, using(crate::proofs::Measured::token_seen))]
pub fn token_len(at: &Ahead) -> usize
    requires some { 0 < length (ahead at.now) }
    requires plain { (spec.word (ahead at.now) ≡ None) × (spec.starts_byte 39 (ahead at.now) ≡ false) × (spec.starts_byte 64 (ahead at.now) ≡ false) }
    ensures value { result ≡ rules.token_len (ahead at.now) }
    ensures some { 0 < result }
    ensures within { result ≤ length (ahead at.now) }
{
    let dotted = larger(special_len(at), extension_len(at));
    larger(1, larger(larger(number_len(at), dotted), sign_at(at)))
}
