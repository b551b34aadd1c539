//! The bytes of the binary form.

ghost use Rattle.std.specs.Prelude.{true, ◌≡◌, ◌≤◌, IfOk, IfSome, length};
ghost use Rattle.fuse_forms.specs.Binary.{IsBinary};

use crate::binary_form::{binary_fuses, binary_len, count_of, is_binary};
use crate::same::are_same;
use pld_base::OutOfMemory;
use std::alloc::Global;

/// The byte that has the levels of eight fuses from one on, 0 for fuses past the end. Takes no memory.
fn packed(levels: &[bool], first: usize) -> u8
    requires { first ≤ 65536 }
{
    let mut byte = 0u8;
    for place in 0..8u8 {
        if *levels.get(first + usize::from(place)).unwrap_or(&false) {
            byte |= 1 << place;
        }
    }
    byte
}

/// The bytes of the form, which are compared with the levels by `binary`.
fn packed_all(alloc: Global, levels: &[bool], count: u16) -> Result<Vec<u8>, OutOfMemory> {
    let mut bytes = Vec::with_capacity(alloc, binary_len(count))?;
    bytes.push(0)?;
    bytes.push(0)?;
    bytes.push((count / 256) as u8)?;
    bytes.push((count % 256) as u8)?;
    for group in 0..binary_len(count) - 4 {
        bytes.push(packed(levels, 8 * group))?;
    }
    Ok(bytes)
}

/// Whether the bytes are the binary form of the levels.
fn is_form_of(alloc: Global, bytes: &[u8], levels: &[bool], count: u16) -> Result<bool, OutOfMemory>
    requires { length levels.now ≡ count }
    ensures { IfOk result (λ is. is ≡ true → IsBinary levels.now bytes.now) }
{
    let begins = is_binary(bytes) && count_of(bytes) == count && bytes.len() == binary_len(count);
    let read = binary_fuses(alloc, bytes, count, count)?;
    Ok(begins && are_same(&read, levels))
}

/// The binary form of a list of fuses, of which there are some and at most 65,535. `None` only for other lists.
pub fn binary(alloc: Global, levels: &[bool]) -> Result<Option<Vec<u8>>, OutOfMemory>
    ensures { IfOk result (λ found. IfSome found (λ bytes. IsBinary levels.now bytes.items)) }
{
    if levels.len() > 65535 {
        return Ok(None);
    }
    let count = levels.len() as u16;
    let bytes = packed_all(alloc, levels, count)?;
    if is_form_of(alloc, &bytes, levels, count)? {
        Ok(Some(bytes))
    } else {
        Ok(None)
    }
}
