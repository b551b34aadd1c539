//! The ends of the arguments of a text.

ghost use Rattle.std.specs.Prelude.{◌+◌, ◌<◌, ◌^◌, length, slice_index, IfOk, OnOk};
ghost use Rattle.text_pieces.specs.Known.{EndsAt, Tells};
ghost use Rattle.text_pieces.specs.Modes.{quoting};
ghost use Rattle.text_pieces.specs.Opened.{ArgumentsOpen};

use crate::ends::Ends;
use crate::mode::Mode;
use std::alloc::{AllocError, Global};

/// Passes a byte, with which arguments may begin or end. Those with brackets aren't followed.
fn pass(ends: &mut Ends, mode: Mode, text: &[u8], at: usize) -> Result<(), AllocError>
    requires within { at < length text.now }
    requires fits { length text.now < 2 ^ 32 }
    requires begun { ArgumentsOpen text.now mode at ends.old }
    ensures { OnOk result (ArgumentsOpen text.now (quoting mode (slice_index text.now at)) (at + 1) ends.new) }
{
    let byte = text[at];
    if !mode.is_plain() {
        return Ok(());
    }
    if byte == b'[' || byte == b']' {
        ends.forget();
        return Ok(());
    }
    if byte == b')' {
        let _place = ends.end(at);
        return Ok(());
    }
    if byte == b',' {
        let _place = ends.end(at);
        ends.begin(at + 1)?;
        return Ok(());
    }
    if byte == b'(' {
        ends.begin(at + 1)?;
    }
    Ok(())
}

/// For each place of a text, the end of the argument that begins there; 0 if it isn't known, as of one that has brackets.
pub fn argument_ends(alloc: Global, text: &[u8]) -> Result<Vec<u32>, AllocError>
    requires { length text.now < 2 ^ 32 }
    ensures { IfOk result (λ t. Tells (EndsAt text.now) 0 t.items) }
{
    let mut ends = Ends::new(alloc, text.len())?;
    let mut mode = Mode::Plain;
    let mut at = 0;
    'bytes: while at < text.len() {
        pass(&mut ends, mode, text, at)?;
        mode = mode.quoting(text[at]);
        at += 1;
    }
    Ok(ends.ends)
}
