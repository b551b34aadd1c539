//! Blocks ahead.

ghost use Rattle.std.specs.Prelude.{◌≡◌, ◌+◌, ◌<◌, ◌≤◌, ◌^◌, length, IfOk, true, false, Some, None, IfSome, IfNone};
ghost use Rattle.abel_macros.specs.Prelude.{ahead, joined};
ghost use Rattle.abel_macros.specs.Forms as spec;
ghost use Rattle.text_pieces.specs.declared.mode.Mode.TheVariants as mode;

use crate::gaps::{skip_byte, skip_gap};
use crate::stretches::{STRETCH, skip_braced};
use std::alloc::{AllocError, Global};
use text_pieces::{Ahead, Mode, Piece};

/// How many of a pair of brackets are open after a byte.
fn nested(opening: u8, shutting: u8, inside: usize, byte: u8) -> usize
    requires { inside < 2 ^ 63 }
    ensures value { result ≡ spec.nested opening shutting inside byte }
    ensures most { result ≤ inside + 1 }
{
    if byte == opening {
        inside + 1
    } else if byte == shutting {
        inside.saturating_sub(1)
    } else {
        inside
    }
}

/// The same if the byte is in the plain text; else as many as before.
pub fn open_in(mode: Mode, opening: u8, shutting: u8, inside: usize, byte: u8) -> usize
    requires { inside < 2 ^ 63 }
    ensures value { result ≡ spec.open_in mode opening shutting inside byte }
    ensures most { result ≤ inside + 1 }
{
    if mode.is_plain() {
        nested(opening, shutting, inside, byte)
    } else {
        inside
    }
}

/// Whether a byte closes a block in which so many braces are open.
fn closes_block(mode: Mode, inside: usize, byte: u8) -> bool
    ensures { result ≡ spec.closes_block mode inside byte }
{
    mode.is_plain() && byte == b'}' && inside == 0
}

/// Passes the text of a block up to the brace that closes it, if there is one, byte by byte. So many bytes are passed singly
/// before stretches are tried again.
fn skip_inside(at: &mut Ahead) -> bool
    ensures yes { result ≡ true → spec.closing 0 mode.Plain (ahead at.old) ≡ Some (ahead at.new) }
    ensures no { result ≡ false → spec.closing 0 mode.Plain (ahead at.old) ≡ None }
    ensures whole { at.new.whole ≡ at.old.whole }
    ensures further { at.old.passed ≤ at.new.passed }
{
    at.fits();
    let mut mode = Mode::Plain;
    let mut inside = 0;
    let mut singly = STRETCH;
    'bytes: while let Some(byte) = at.peek() {
        if closes_block(mode, inside, byte) {
            return true;
        }
        let _byte = at.step();
        inside = open_in(mode, b'{', b'}', inside, byte);
        mode = mode.passing(byte, at);
        if singly > 0 {
            singly -= 1;
        } else {
            inside = skip_braced(at, mode, inside);
            singly = STRETCH;
        }
    }
    false
}

/// Passes the text of a block up to the brace that closes it, if there is one: at once if its end is known.
fn skip_to_closing(at: &mut Ahead) -> bool
    ensures yes { result ≡ true → spec.closing 0 mode.Plain (ahead at.old) ≡ Some (ahead at.new) }
    ensures no { result ≡ false → spec.closing 0 mode.Plain (ahead at.old) ≡ None }
    ensures whole { at.new.whole ≡ at.old.whole }
    ensures further { at.old.passed ≤ at.new.passed }
{
    let Some(count) = at.block_len() else {
        return skip_inside(at);
    };
    at.skip(count);
    true
}

/// Reads a block's text after its opening brace, and passes its closing brace.
#[tactic(auto, using(crate::proofs::Behind::part_fits))]
fn read_inside<'a>(
    alloc: Global,
    at: &mut Ahead<'_, 'a>,
) -> Result<Option<Vec<Piece<'a>>>, AllocError>
    ensures some { IfOk result (λ o. IfSome o (λ w. spec.block_inside (ahead at.old) ≡ Some (joined w.items, ahead at.new))) }
    ensures none { IfOk result (λ o. IfNone o (spec.block_inside (ahead at.old) ≡ None)) }
    ensures fits { IfOk result (λ o. IfSome o (λ w. length (joined w.items) < 2 ^ 63)) }
    ensures whole { at.new.whole ≡ at.old.whole }
    ensures further { at.old.passed ≤ at.new.passed }
{
    let from = at.fork();
    from.fits();
    if !skip_to_closing(at) {
        return Ok(None);
    }
    let text = from.until(alloc, at.passed() - from.passed())?;
    let _brace = at.step();
    Ok(Some(text))
}

/// Reads a block's text, blanks and comments before it passed over.
pub fn read_block<'a>(
    alloc: Global,
    at: &mut Ahead<'_, 'a>,
) -> Result<Option<Vec<Piece<'a>>>, AllocError>
    ensures some { IfOk result (λ o. IfSome o (λ w. spec.block (ahead at.old) ≡ Some (joined w.items, ahead at.new))) }
    ensures none { IfOk result (λ o. IfNone o (spec.block (ahead at.old) ≡ None)) }
    ensures fits { IfOk result (λ o. IfSome o (λ w. length (joined w.items) < 2 ^ 63)) }
    ensures whole { at.new.whole ≡ at.old.whole }
    ensures further { at.old.passed ≤ at.new.passed }
{
    skip_gap(at);
    if !skip_byte(at, b'{') {
        return Ok(None);
    }
    read_inside(alloc, at)
}
