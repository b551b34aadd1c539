//! Texts with a byte or a sum that was lost.

ghost use Rattle.std.specs.Prelude.{◌≡◌, ◌∷◌, ◌++◌, ◌≤◌, IfOk, IfSome, codes, drop, length, take};
ghost use Rattle.fuse_forms.specs.Prelude.{ETX, STX};
ghost use Rattle.fuse_forms.specs.Repairs.{HasEnd, HasFuseSum, HasSum};

use jedec_file::JedecFault;
use jedec_reader::{frame_of, only_sum, place_of};
use pld_base::{OutOfMemory, put_hex};
use std::alloc::Global;

/// The byte that starts the text.
const STX: u8 = 2;

/// The byte that ends the text.
const ETX: u8 = 3;

/// The text after a start byte.
pub fn with_start(alloc: Global, text: &[u8]) -> Result<Vec<u8>, OutOfMemory>
    ensures { IfOk result (λ v. v.items ≡ STX ∷ text.now) }
{
    let mut out = Vec::from_slice(alloc, &[STX])?;
    out.extend_from_slice(text)?;
    Ok(out)
}

/// The value of the four hexadecimal digits at a place, if they are. Takes no memory.
fn digits_at(text: &[u8], at: usize) -> Option<u16> {
    if text.len() < 4 || at > text.len() - 4 {
        return None;
    }
    let (digits, _) = text.split_at(at).1.split_at(4);
    only_sum(digits)
}

/// The place after the last field and the blanks after it, or the end if nothing else follows. Takes no memory.
fn end_of_fields(text: &[u8]) -> usize
    ensures { result ≤ length text.now }
{
    let mut end = text.len();
    let mut ends = false;
    for (place, byte) in text.iter().enumerate() {
        if *byte == b'*' {
            ends = true;
        } else if ends && !is_blank(*byte) {
            ends = false;
            end = place;
        }
    }
    if ends { text.len() } else { end }
}

/// Whether a byte parts words. Takes no memory.
fn is_blank(byte: u8) -> bool {
    byte == b' ' || byte == b'\t' || byte == b'\r' || byte == b'\n'
}

/// The text with an end byte before the four digits at its end, if there are any, and no sum else. `None` if it has an end
/// byte.
pub fn with_end(alloc: Global, text: &[u8]) -> Result<Option<Vec<u8>>, OutOfMemory>
    ensures { IfOk result (λ found. IfSome found (λ v. HasEnd text.now v.items)) }
{
    if place_of(text, ETX).is_some() {
        return Ok(None);
    }
    let last = end_of_fields(text);
    let place = if digits_at(text, last).is_some() {
        last
    } else {
        text.len()
    };
    let (front, rest) = text.split_at(place);
    let mut out = Vec::from_slice(alloc, front)?;
    out.push(ETX)?;
    out.extend_from_slice(rest)?;
    out.extend_from_slice(b"0000")?;
    Ok(Some(out))
}

/// The text with another sum after the byte at a place, which has this value. `None` for another byte, and without digits.
fn with_sum(
    alloc: Global,
    text: &[u8],
    mark: u8,
    place: usize,
    found: u16,
) -> Result<Option<Vec<u8>>, OutOfMemory>
    ensures { IfOk result (λ out. IfSome out (λ v. HasSum mark found text.now v.items)) }
{
    if text.len() < 5 || place > text.len() - 5 {
        return Ok(None);
    }
    let (front, rest) = text.split_at(place);
    let (first, behind) = rest.split_at(1);
    if first != [mark].as_slice() {
        return Ok(None);
    }
    let mut out = Vec::from_slice(alloc, front)?;
    out.push(mark)?;
    put_hex(&mut out, found)?;
    out.extend_from_slice(behind.split_at(4).1)?;
    Ok(Some(out))
}

/// The text with the right transmission sum.
pub fn with_file_sum(alloc: Global, text: &[u8], found: u16) -> Result<Option<Vec<u8>>, OutOfMemory>
    ensures { IfOk result (λ out. IfSome out (λ v. HasSum ETX found text.now v.items)) }
{
    let start = place_of(text, STX).unwrap_or(0);
    let Some(end) = place_of(text.split_at(start).1, ETX) else {
        return Ok(None);
    };
    with_sum(alloc, text, ETX, start + end, found)
}

/// The place of the letter of the last fuse sum of this value. Takes no memory.
fn fuse_sum_place(text: &[u8], read: u16) -> Option<usize> {
    let mut found = None;
    let mut begins = false;
    for (place, byte) in text.iter().enumerate() {
        if begins && *byte == b'C' && digits_at(text, place + 1) == Some(read) {
            found = Some(place);
        }
        begins = *byte == b'*' || begins && is_blank(*byte);
    }
    found
}

/// The text with the right fuse sum, and then the right transmission sum.
pub fn with_fuse_sum(
    alloc: Global,
    text: &[u8],
    read: u16,
    found: u16,
) -> Result<Option<Vec<u8>>, OutOfMemory>
    ensures { IfOk result (λ out. IfSome out (λ v. HasFuseSum found text.now v.items)) }
{
    let Some(place) = fuse_sum_place(text, read) else {
        return Ok(None);
    };
    let Some(next) = with_sum(alloc, text, b'C', place, found)? else {
        return Ok(None);
    };
    match frame_of(&next) {
        Err(JedecFault::FileSum { found, .. }) => with_file_sum(alloc, &next, found),
        _ => Ok(Some(next)),
    }
}
