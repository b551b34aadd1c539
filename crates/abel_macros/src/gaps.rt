//! Comments and blanks ahead: each function passes what is there.

ghost use Rattle.std.specs.Prelude.{◌≡◌, ℕ, ◌<◌, ◌≤◌, List, ◌∷◌, length, true, false, Some, None};
ghost use Rattle.abel_macros.specs.Prelude.{ahead};
ghost use Rattle.abel_macros.specs.Gaps as spec;

use abel_lexer::is_blank;
use text_pieces::{Ahead, Mode};

/// Whether the next byte is this one.
pub fn is_next(at: &Ahead, byte: u8) -> bool
    ensures { result ≡ spec.starts_byte byte (ahead at.now) }
{
    match at.peek() {
        Some(next) => next == byte,
        None => false,
    }
}

/// Whether the byte after the next one is this one.
fn is_second(at: &Ahead, byte: u8) -> bool
    ensures { result ≡ spec.starts_byte byte (spec.rest_of (ahead at.now)) }
{
    match at.peek_second() {
        Some(next) => next == byte,
        None => false,
    }
}

/// Passes this byte, if it is next.
pub fn skip_byte(at: &mut Ahead, byte: u8) -> bool
    ensures yes { result ≡ true → spec.given (spec.starts_byte byte (ahead at.old)) (spec.rest_of (ahead at.old)) ≡ Some (ahead at.new) }
    ensures no { result ≡ false → spec.starts_byte byte (ahead at.old) ≡ false }
    ensures same { result ≡ false → at.new ≡ at.old }
    ensures whole { at.new.whole ≡ at.old.whole }
    ensures further { at.old.passed ≤ at.new.passed }
    ensures some { result ≡ true → at.old.passed < at.new.passed }
{
    if !is_next(at, byte) {
        return false;
    }
    let _byte = at.step();
    true
}

/// Passes the next byte, if there is one.
pub fn skip_any(at: &mut Ahead)
    ensures ahead { ahead at.new ≡ spec.rest_of (ahead at.old) }
    ensures whole { at.new.whole ≡ at.old.whole }
    ensures further { at.old.passed ≤ at.new.passed }
{
    match at.step() {
        Some(_byte) => {}
        None => {}
    }
}

/// Passes the rest of a line, up to its line feed.
fn skip_line(at: &mut Ahead)
    ensures ahead { ahead at.new ≡ spec.behind_line (ahead at.old) }
    ensures whole { at.new.whole ≡ at.old.whole }
    ensures further { at.old.passed ≤ at.new.passed }
{
    'bytes: while let Some(byte) = at.peek() {
        if byte == b'\n' {
            return;
        }
        let _byte = at.step();
    }
}

/// Passes the rest of a comment that began with `"`.
fn skip_note(at: &mut Ahead)
    ensures ahead { ahead at.new ≡ spec.behind_note (ahead at.old) }
    ensures whole { at.new.whole ≡ at.old.whole }
    ensures further { at.old.passed ≤ at.new.passed }
{
    'bytes: while let Some(byte) = at.peek() {
        if byte == b'\n' {
            return;
        }
        let _byte = at.step();
        if byte == b'"' {
            return;
        }
    }
}

/// Passes a comment, if one is ahead.
pub fn skip_comment(at: &mut Ahead) -> bool
    ensures yes { result ≡ true → spec.comment (ahead at.old) ≡ Some (ahead at.new) }
    ensures no { result ≡ false → spec.comment (ahead at.old) ≡ None }
    ensures whole { at.new.whole ≡ at.old.whole }
    ensures further { at.old.passed ≤ at.new.passed }
    ensures some { result ≡ true → at.old.passed < at.new.passed }
{
    let Some(first) = at.step() else {
        return false;
    };
    if first == b'"' {
        skip_note(at);
        true
    } else if first == b'/' && is_next(at, b'/') {
        skip_line(at);
        true
    } else {
        false
    }
}

/// Whether this byte, which is next, ends a gap.
fn ends_gap(mode: Mode, byte: u8, at: &Ahead) -> bool
    ensures { (bs : List ℕ) → ahead at.now ≡ byte ∷ bs → result ≡ spec.ends_gap mode byte bs }
{
    mode.is_plain() && !is_blank(byte) && byte != b'"' && !(byte == b'/' && is_second(at, b'/'))
}

/// Passes blanks and comments.
pub fn skip_gap(at: &mut Ahead)
    ensures ahead { ahead at.new ≡ spec.gap (ahead at.old) }
    ensures whole { at.new.whole ≡ at.old.whole }
    ensures further { at.old.passed ≤ at.new.passed }
{
    let mut mode = Mode::Plain;
    'bytes: while let Some(byte) = at.peek() {
        if ends_gap(mode, byte, at) {
            return;
        }
        let _byte = at.step();
        mode = mode.passing(byte, at);
    }
}

/// Passes blanks and comments, up to a place among them where so many bytes are left; says whether it
/// stopped there.
#[tactic(auto, using(crate::proofs::Gapped::plain_gap, crate::proofs::Gapped::ended_gap))]
pub fn skip_gap_to(at: &mut Ahead, left: usize) -> bool
    ensures gap { spec.gap (ahead at.new) ≡ spec.gap (ahead at.old) }
    ensures stopped { result ≡ true → length (ahead at.new) ≡ left }
    ensures whole { at.new.whole ≡ at.old.whole }
    ensures further { at.old.passed ≤ at.new.passed }
{
    let mut mode = Mode::Plain;
    'bytes: while let Some(byte) = at.peek() {
        if mode.is_plain() && at.left() == left {
            return true;
        }
        if ends_gap(mode, byte, at) {
            return false;
        }
        let _byte = at.step();
        mode = mode.passing(byte, at);
    }
    false
}
