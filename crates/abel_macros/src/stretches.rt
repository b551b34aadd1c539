//! Stretches of text, passed whole if no block and no argument ends in them, or a byte isn't there.

ghost use Rattle.std.specs.Prelude.{◌≡◌, ℕ, ◌+◌, ◌-◌, ◌<◌, ◌≤◌, ◌^◌, ◌==◌, length, take, drop, true, IfSome};
ghost use Rattle.abel_macros.specs.Prelude.{count_by, ahead};
ghost use Rattle.abel_macros.specs.Forms as spec;
ghost use Rattle.text_pieces.specs.declared.mode.Mode.TheVariants as mode;

use text_pieces::{Ahead, Mode};

/// How many bytes are looked at together. A sum over so many fits a byte, which lets many be added at once.
pub const STRETCH: usize = 128;

/// How often a byte is in a stretch.
fn count(stretch: &[u8], byte: u8) -> usize
    requires { length stretch.now ≤ 128 }
    ensures value { result ≡ count_by (λ b. b == byte) stretch.now }
    ensures most { result ≤ length stretch.now }
{
    let mut count: u8 = 0;
    for next in stretch {
        count += (*next == byte) as u8;
    }
    count as usize
}

/// Whether none of three bytes is in a stretch.
fn has_none(stretch: &[u8], first: u8, second: u8, third: u8) -> bool
    requires { length stretch.now ≤ 128 }
    ensures first { result ≡ true → count_by (λ b. b == first) stretch.now ≡ 0 }
    ensures second { result ≡ true → count_by (λ b. b == second) stretch.now ≡ 0 }
    ensures third { result ≡ true → count_by (λ b. b == third) stretch.now ≡ 0 }
{
    count(stretch, first) == 0 && count(stretch, second) == 0 && count(stretch, third) == 0
}

/// How many of a pair of brackets are open after a stretch, if some stay open all through it.
fn open_behind(stretch: &[u8], opening: u8, shutting: u8, inside: usize) -> Option<usize>
    requires short { length stretch.now ≤ 128 }
    requires fits { inside < 2 ^ 63 }
    ensures shut { IfSome result (λ n. count_by (λ b. b == shutting) stretch.now < inside) }
    ensures value { IfSome result (λ n. n + count_by (λ b. b == shutting) stretch.now ≡ inside + count_by (λ b. b == opening) stretch.now) }
    ensures most { IfSome result (λ n. n ≤ inside + length stretch.now) }
{
    let shut = count(stretch, shutting);
    if shut >= inside {
        return None;
    }
    Some(inside - shut + count(stretch, opening))
}

/// The stretch ahead, if it is in one piece.
#[tactic(auto, using(crate::proofs::Passed::front_begins))]
fn stretch_ahead<'r>(at: &Ahead<'r, '_>) -> Option<&'r [u8]>
    ensures bytes { IfSome result (λ s. s.now ≡ take 128 (ahead at.now)) }
    ensures length { IfSome result (λ s. length s.now ≡ 128) }
    ensures within { IfSome result (λ s. 128 ≤ length (ahead at.now)) }
{
    let front = at.front();
    if front.len() < STRETCH {
        return None;
    }
    let (stretch, _behind) = front.split_at(STRETCH);
    Some(stretch)
}

/// Passes stretches of plain text in which no string and no comment begins and no block ends; so many
/// braces are open before them, and the answer after them.
#[tactic(auto, using(crate::proofs::Passed::block_goes_on))]
pub fn skip_braced(at: &mut Ahead, mode: Mode, inside: usize) -> usize
    requires { inside + length (ahead at.old) < 2 ^ 63 }
    ensures value { spec.closing result mode (ahead at.new) ≡ spec.closing inside mode (ahead at.old) }
    ensures few { result + length (ahead at.new) ≤ inside + length (ahead at.old) }
    ensures whole { at.new.whole ≡ at.old.whole }
    ensures further { at.old.passed ≤ at.new.passed }
{
    let mut open = inside;
    'stretches: while mode.is_plain() {
        let Some(stretch) = stretch_ahead(at) else {
            return open;
        };
        if !has_none(stretch, b'\'', b'"', b'/') {
            return open;
        }
        let Some(next) = open_behind(stretch, b'{', b'}', open) else {
            return open;
        };
        at.skip(STRETCH);
        open = next;
    }
    open
}

/// Passes stretches of plain text in which no string begins, no argument ends and no bracket is; so many
/// parentheses are open before them, and the answer after them.
#[tactic(auto, using(crate::proofs::Passed::argument_goes_on))]
pub fn skip_enclosed(at: &mut Ahead, mode: Mode, parens: usize, brackets: usize) -> usize
    requires { parens + length (ahead at.old) < 2 ^ 63 }
    ensures value { spec.argument_end result brackets mode (ahead at.new) ≡ spec.argument_end parens brackets mode (ahead at.old) }
    ensures few { result + length (ahead at.new) ≤ parens + length (ahead at.old) }
    ensures fewer { length (ahead at.new) ≤ length (ahead at.old) }
    ensures whole { at.new.whole ≡ at.old.whole }
    ensures further { at.old.passed ≤ at.new.passed }
{
    let mut open = parens;
    'stretches: while mode.is_plain() {
        let Some(stretch) = stretch_ahead(at) else {
            return open;
        };
        if !has_none(stretch, b'\'', b'[', b']') {
            return open;
        }
        let Some(next) = open_behind(stretch, b'(', b')', open) else {
            return open;
        };
        at.skip(STRETCH);
        open = next;
    }
    open
}

/// Passes bytes of the plain text of which it is known that they neither end an argument nor nest anything in it. So many
/// parentheses and brackets are open before them, and after them.
#[tactic(auto, using(crate::proofs::Passed::unbracketed_on))]
pub fn skip_unbracketed(at: &mut Ahead, mode: Mode, _parens: usize, _brackets: usize)
    ensures value { spec.argument_end _parens _brackets mode (ahead at.new) ≡ spec.argument_end _parens _brackets mode (ahead at.old) }
    ensures fewer { length (ahead at.new) ≤ length (ahead at.old) }
    ensures whole { at.new.whole ≡ at.old.whole }
    ensures further { at.old.passed ≤ at.new.passed }
{
    if mode.is_plain() {
        at.skip(at.unbracketed_len());
    }
}

/// Passes stretches in which a byte isn't; how many bytes these are.
#[tactic(auto, using(crate::proofs::Passed::none_more))]
pub fn skip_without(at: &mut Ahead, byte: u8) -> usize
    ensures none { count_by (λ b. b == byte) (take result (ahead at.old)) ≡ 0 }
    ensures ahead { ahead at.new ≡ drop result (ahead at.old) }
    ensures within { result ≤ length (ahead at.old) }
    ensures whole { at.new.whole ≡ at.old.whole }
{
    at.fits();
    let mut passed = 0;
    'stretches: while let Some(stretch) = stretch_ahead(at) {
        if count(stretch, byte) > 0 {
            return passed;
        }
        at.skip(STRETCH);
        passed += STRETCH;
    }
    passed
}
