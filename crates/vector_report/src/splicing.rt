//! The bytes of a fuse file with other vectors in place of its own.

use crate::fields::{is_of, is_replaced, split};
use jedec_file::byte_sum;
use jedec_reader::frame_of;
use pld_base::{OutOfMemory, Vector, put_decimal, put_four_digits, put_hex};
use pld_device::{Device, Loaded};
use std::alloc::Global;

/// The byte that ends the text.
const ETX: u8 = 3;

/// The most vectors that four digits number.
const MOST: usize = 9_999;

/// Appends the fields of the vectors, each in a line of its own, and how many there are.
fn put_vectors<D: Device>(
    alloc: Global,
    device: &Loaded<D>,
    out: &mut Vec<u8>,
    vectors: &[Vector],
) -> Result<(), OutOfMemory> {
    out.extend_from_slice(b"\r\nQV")?;
    put_decimal(alloc, out, vectors.len())?;
    out.push(b'*')?;
    for (index, vector) in vectors.iter().enumerate() {
        let number = if index < MOST { index as u16 + 1 } else { 0 };
        out.extend_from_slice(b"\r\nV")?;
        put_four_digits(out, number)?;
        out.push(b' ')?;
        out.extend_from_slice(vector.chars.split_at(usize::from(device.pins())).0)?;
        out.push(b'*')?;
    }
    Ok(())
}

/// Appends a text's fields, with these vectors in place of its own: before the fuse sum, or at the end.
fn put_fields<D: Device>(
    alloc: Global,
    device: &Loaded<D>,
    out: &mut Vec<u8>,
    text: &[u8],
    vectors: &[Vector],
) -> Result<(), OutOfMemory> {
    let mut rest = text;
    let mut is_put = vectors.is_empty();
    let mut is_header = true;
    for _ in 0..text.len() {
        let Some((field, next)) = split(rest) else {
            break;
        };
        if !is_put && !is_header && is_of(field, b'C') {
            put_vectors::<D>(alloc, device, out, vectors)?;
            is_put = true;
        }
        if is_header || !is_replaced(field) {
            out.extend_from_slice(field)?;
            out.push(b'*')?;
        }
        is_header = false;
        rest = next;
    }
    if !is_put {
        put_vectors::<D>(alloc, device, out, vectors)?;
    }
    out.extend_from_slice(rest)?;
    Ok(())
}

/// A fuse file's bytes up to the sum, with these vectors in place of its own. None if they have no text.
pub fn spliced<D: Device>(
    alloc: Global,
    device: &Loaded<D>,
    bytes: &[u8],
    vectors: &[Vector],
) -> Result<Option<Vec<u8>>, OutOfMemory> {
    let Ok((at, text)) = frame_of(bytes) else {
        return Ok(None);
    };
    let before = bytes.split_at(at).0;
    let mut framed = Vec::new(alloc);
    if let Some(start) = before.last() {
        framed.push(*start)?;
    }
    put_fields::<D>(alloc, device, &mut framed, text, vectors)?;
    framed.push(ETX)?;
    let sum = byte_sum(&framed);
    put_hex(&mut framed, sum)?;
    framed.extend_from_slice(b"\r\n")?;
    Ok(Some(framed))
}
