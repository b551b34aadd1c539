//! Where the bytes are in a text that a look stops at.

ghost use Rattle.std.specs.Prelude.{◌+◌, ◌≤◌, ◌<◌, ◌^◌, length, IfOk};
ghost use Rattle.text_pieces.specs.Known.{FreeOf, Tells};
ghost use Rattle.text_pieces.specs.Stops.{is_stop};

use crate::stop::Stop;
use std::alloc::{AllocError, Global};

/// The next stop from a byte on, or the end of the text; this is the one after the byte.
fn stop_from(text: &[u8], at: usize, stop: Stop, behind: usize) -> usize
    requires within { at < length text.now }
    requires none { FreeOf (is_stop stop) text.now (at + 1) behind }
    requires more { at < behind }
    ensures none { FreeOf (is_stop stop) text.now at result }
    ensures more { at ≤ result }
    ensures within { result ≤ length text.now }
{
    if stop.is_at(text[at]) { at } else { behind }
}

/// For each place of a text, the next stop from it on, or the end of the text.
pub fn stops(alloc: Global, text: &[u8], stop: Stop) -> Result<Vec<u32>, AllocError>
    requires { length text.now < 2 ^ 32 }
    ensures { IfOk result (λ t. Tells (FreeOf (is_stop stop) text.now) 0 t.items) }
{
    let mut stops = Vec::from_elem(alloc, 0, text.len())?;
    let mut at = text.len();
    let mut next = at;
    'bytes: while at > 0 {
        at -= 1;
        next = stop_from(text, at, stop, next);
        if at < stops.len() {
            stops[at] = next as u32;
        }
    }
    Ok(stops)
}
