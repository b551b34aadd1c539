//! The signature: fuses that no row and no cell reads.

ghost use Rattle.std.specs.Prelude.{◌≡◌, ◌≤◌, IfOk, length};
ghost use Rattle.fuse_forms.specs.Signature.{signature_bit, signed, signed_level};

use pld_base::{OutOfMemory, level_at};
use std::alloc::Global;

/// The fuses of the signature.
const SIGNATURE: usize = 64;

/// The level of a fuse of the signature. Takes no memory.
fn signature_bit(text: &[u8], place: usize) -> bool
    ensures { result ≡ signature_bit text.now place }
{
    let byte = *text.get(place / 8).unwrap_or(&0);
    level_at(u32::from(byte), 7 - (place % 8) as u8)
}

/// The level of a fuse that has this one. Takes no memory.
fn signed_level(text: &[u8], first: usize, fuse: usize, level: bool) -> bool
    ensures { result ≡ signed_level text.now first fuse level }
{
    if first <= fuse && fuse - first < SIGNATURE {
        signature_bit(text, fuse - first)
    } else {
        level
    }
}

/// The levels with a text in the fuses of the signature, from the first of them on: eight a character, the highest bit first,
/// and 0 past the text.
pub fn signed(
    alloc: Global,
    levels: &[bool],
    first: usize,
    text: &[u8],
) -> Result<Vec<bool>, OutOfMemory>
    ensures { IfOk result (λ v. v.items ≡ signed text.now first levels.now) }
{
    let mut out = Vec::with_capacity(alloc, levels.len())?;
    for (fuse, level) in levels.iter().enumerate() {
        out.push(signed_level(text, first, fuse, *level))?;
    }
    Ok(out)
}
