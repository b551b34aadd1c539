//! The ends of the blocks of a text.

ghost use Rattle.std.specs.Prelude.{◌+◌, ◌<◌, ◌^◌, length, drop, slice_index, IfOk, OnOk};
ghost use Rattle.text_pieces.specs.Known.{ClosesAt, Tells};
ghost use Rattle.text_pieces.specs.Modes.{passing};
ghost use Rattle.text_pieces.specs.Opened.{BlocksOpen};

use crate::ends::Ends;
use crate::mode::Mode;
use std::alloc::{AllocError, Global};

/// Passes a byte, with which a block may begin or end.
fn pass(ends: &mut Ends, mode: Mode, text: &[u8], at: usize) -> Result<(), AllocError>
    requires within { at < length text.now }
    requires fits { length text.now < 2 ^ 32 }
    requires begun { BlocksOpen text.now mode at ends.old }
    ensures { OnOk result (BlocksOpen text.now (passing mode (slice_index text.now at) (drop (at + 1) text.now)) (at + 1) ends.new) }
{
    let byte = text[at];
    if !mode.is_plain() {
        return Ok(());
    }
    if byte == b'{' {
        ends.begin(at + 1)?;
        return Ok(());
    }
    if byte == b'}' {
        let _place = ends.end(at);
    }
    Ok(())
}

/// For each place of a text, the end of the block whose text begins there; 0 if none begins or it isn't closed.
pub fn block_ends(alloc: Global, text: &[u8]) -> Result<Vec<u32>, AllocError>
    requires { length text.now < 2 ^ 32 }
    ensures { IfOk result (λ t. Tells (ClosesAt text.now) 0 t.items) }
{
    let mut ends = Ends::new(alloc, text.len())?;
    let mut mode = Mode::Plain;
    let mut at = 0;
    'bytes: while at < text.len() {
        pass(&mut ends, mode, text, at)?;
        let byte = text[at];
        at += 1;
        let (_passed, behind) = text.split_at(at);
        mode = mode.passing_in(byte, behind);
    }
    Ok(ends.ends)
}
