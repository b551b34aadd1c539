//! Arguments ahead.

ghost use Rattle.std.specs.Prelude.{◌≡◌, ◌≤◌, length, IfOk, true, false, Some, None, IfSome, IfNone};
ghost use Rattle.abel_macros.specs.Prelude.{ahead, joined};
ghost use Rattle.abel_macros.specs.Forms as spec;
ghost use Rattle.abel_macros.specs.Pieces.{texts};
ghost use Rattle.text_pieces.specs.declared.mode.Mode.TheVariants as mode;

use crate::blocks::open_in;
use crate::gaps::{is_next, skip_any, skip_byte, skip_gap};
use crate::stretches::{STRETCH, skip_enclosed, skip_unbracketed};
use crate::trimming::trimmed;
use std::alloc::{AllocError, Global};
use text_pieces::{Ahead, Mode, Piece};

/// Whether a byte ends an argument in which so many parentheses and brackets are open.
fn ends_argument(parens: usize, brackets: usize, mode: Mode, byte: u8) -> bool
    ensures { result ≡ spec.ends_argument parens brackets mode byte }
{
    mode.is_plain() && parens == 0 && (byte == b')' || byte == b',' && brackets == 0)
}

/// Passes an argument up to the comma or parenthesis that ends it, if there is one: byte by byte, but for those of which it is
/// known that they neither end nor nest anything. So many are passed singly before stretches are tried again.
fn skip_argument(at: &mut Ahead) -> bool
    ensures yes { result ≡ true → spec.argument_end 0 0 mode.Plain (ahead at.old) ≡ Some (ahead at.new) }
    ensures no { result ≡ false → spec.argument_end 0 0 mode.Plain (ahead at.old) ≡ None }
    ensures whole { at.new.whole ≡ at.old.whole }
    ensures further { at.old.passed ≤ at.new.passed }
{
    at.fits();
    let mut mode = Mode::Plain;
    let mut parens = 0;
    let mut brackets = 0;
    let mut singly = STRETCH;
    'bytes: while let Some(byte) = at.peek() {
        if ends_argument(parens, brackets, mode, byte) {
            return true;
        }
        let _byte = at.step();
        parens = open_in(mode, b'(', b')', parens, byte);
        brackets = open_in(mode, b'[', b']', brackets, byte);
        mode = mode.quoting(byte);
        skip_unbracketed(at, mode, parens, brackets);
        if singly > 0 {
            singly -= 1;
        } else {
            parens = skip_enclosed(at, mode, parens, brackets);
            singly = STRETCH;
        }
    }
    false
}

/// Passes an argument up to the comma or parenthesis that ends it, if there is one: at once if its end is known.
fn skip_to_end(at: &mut Ahead) -> bool
    ensures yes { result ≡ true → spec.argument_end 0 0 mode.Plain (ahead at.old) ≡ Some (ahead at.new) }
    ensures no { result ≡ false → spec.argument_end 0 0 mode.Plain (ahead at.old) ≡ None }
    ensures whole { at.new.whole ≡ at.old.whole }
    ensures further { at.old.passed ≤ at.new.passed }
{
    let Some(count) = at.argument_len() else {
        return skip_argument(at);
    };
    at.skip(count);
    true
}

/// Reads an argument, and stops at the comma or parenthesis after it.
fn read_argument<'a>(
    alloc: Global,
    at: &mut Ahead<'_, 'a>,
) -> Result<Option<Vec<Piece<'a>>>, AllocError>
    ensures some { IfOk result (λ o. IfSome o (λ w. spec.argument (ahead at.old) ≡ Some (joined w.items, ahead at.new))) }
    ensures none { IfOk result (λ o. IfNone o (spec.argument (ahead at.old) ≡ None)) }
    ensures whole { at.new.whole ≡ at.old.whole }
    ensures further { at.old.passed ≤ at.new.passed }
{
    let from = at.fork();
    if !skip_to_end(at) {
        return Ok(None);
    }
    let argument = trimmed(alloc, &from, at.passed() - from.passed())?;
    Ok(Some(argument))
}

/// Reads arguments up to the closing parenthesis, and passes it; at most so many.
#[tactic(auto, using(crate::proofs::Lists::argument_none, crate::proofs::Lists::argument_last, crate::proofs::Lists::argument_next, crate::proofs::Lists::arguments_out, crate::proofs::Lists::texts_push))]
fn read_arguments_in<'a>(
    alloc: Global,
    at: &mut Ahead<'_, 'a>,
    most: usize,
) -> Result<Option<Vec<Vec<Piece<'a>>>>, AllocError>
    ensures some { IfOk result (λ o. IfSome o (λ w. spec.arguments_in most (ahead at.old) ≡ Some (texts w.items, ahead at.new))) }
    ensures none { IfOk result (λ o. IfNone o (spec.arguments_in most (ahead at.old) ≡ None)) }
    ensures whole { at.new.whole ≡ at.old.whole }
    ensures further { at.old.passed ≤ at.new.passed }
{
    let mut arguments = Vec::new(alloc);
    let mut more = most;
    'arguments: while more > 0 {
        let Some(argument) = read_argument(alloc, at)? else {
            return Ok(None);
        };
        arguments.push(argument)?;
        let closes = is_next(at, b')');
        skip_any(at);
        if closes {
            return Ok(Some(arguments));
        }
        more -= 1;
    }
    Ok(None)
}

/// Reads the arguments in parentheses, blanks and comments before them passed over.
pub fn read_arguments<'a>(
    alloc: Global,
    at: &mut Ahead<'_, 'a>,
) -> Result<Option<Vec<Vec<Piece<'a>>>>, AllocError>
    ensures some { IfOk result (λ o. IfSome o (λ w. spec.arguments (ahead at.old) ≡ Some (texts w.items, ahead at.new))) }
    ensures none { IfOk result (λ o. IfNone o (spec.arguments (ahead at.old) ≡ None)) }
    ensures whole { at.new.whole ≡ at.old.whole }
    ensures further { at.old.passed ≤ at.new.passed }
{
    let most = at.left();
    skip_gap(at);
    if !skip_byte(at, b'(') {
        return Ok(None);
    }
    read_arguments_in(alloc, at, most)
}
