//! What the report says that a line of exact text can't.

use crate::lines::line_at;
use crate::made::Input;
use crate::outcome::Outcome;
use crate::places::Found;
use pld_base::{OutOfMemory, Place, put_decimal};
use pld_device::{Device, Loaded};
use shown_text::excerpt_of;
use std::alloc::Global;

/// The refusal of a line of the report: its word, and what it gives after the place.
fn put_words(text: &mut Vec<u8>, line: &[u8]) -> Result<(), OutOfMemory> {
    let mut blanks = 0u32;
    for byte in line {
        if *byte == b' ' {
            blanks = blanks.saturating_add(1);
        }
        if *byte == b' ' && blanks == 4 {
            text.push(b':')?;
        }
        if *byte != b'\n' && (blanks < 2 || blanks > 3) {
            text.push(*byte)?;
        }
    }
    text.push(b'\n')?;
    Ok(())
}

/// Appends the line of a text around a place, and a caret under the place.
fn put_caret(
    alloc: Global,
    text: &mut Vec<u8>,
    source: &[u8],
    place: Place,
) -> Result<(), OutOfMemory> {
    let line = line_at(source, place.line);
    let column = (place.column as usize).saturating_sub(1);
    let (before, rest) = line.split_at(column.min(line.len()));
    let excerpt = excerpt_of(alloc, before, rest)?;
    text.extend_from_slice(excerpt.before.as_bytes())?;
    text.extend_from_slice(excerpt.rest.as_bytes())?;
    text.push(b'\n')?;
    for char in excerpt.before.chars() {
        text.push(if char == '\t' { b'\t' } else { b' ' })?;
    }
    text.extend_from_slice(b"^\n")?;
    Ok(())
}

/// Appends a place in a file: its name, the line and the column.
pub fn put_place(
    alloc: Global,
    text: &mut Vec<u8>,
    name: &[u8],
    place: Place,
) -> Result<(), OutOfMemory> {
    text.extend_from_slice(name)?;
    text.push(b':')?;
    put_decimal(alloc, text, place.line as usize)?;
    text.push(b':')?;
    put_decimal(alloc, text, place.column as usize)
}

/// Appends where in a file a refusal of this line is, that line of the source, and a caret under the place; and the same of
/// the call, if the place is in what a macro or a directive represents.
pub fn put_refusal(
    alloc: Global,
    text: &mut Vec<u8>,
    input: Input,
    line: &[u8],
    found: Found,
) -> Result<(), OutOfMemory> {
    put_place(alloc, text, input.name, found.source)?;
    text.extend_from_slice(b": ")?;
    put_words(text, line)?;
    put_caret(alloc, text, input.bytes, found.source)?;
    if let Some(call) = found.call {
        put_place(alloc, text, input.name, call)?;
        text.extend_from_slice(b": expanded here\n")?;
        put_caret(alloc, text, input.bytes, call)?;
    }
    Ok(())
}

/// Appends what is said of the vectors of a compiled source: that all agree, or the lines of `simulate`.
pub fn put_vectors<D: Device>(
    alloc: Global,
    device: &Loaded<D>,
    text: &mut Vec<u8>,
    outcome: &Outcome,
) -> Result<(), OutOfMemory> {
    let Outcome::Ran(run) = outcome else {
        text.extend_from_slice(&outcome.lines::<D>(alloc, device)?)?;
        return Ok(());
    };
    let report = &run.report;
    if !report.list.as_slice().is_empty() {
        text.extend_from_slice(&outcome.lines::<D>(alloc, device)?)?;
    } else if report.vectors == 1 {
        text.extend_from_slice(b"1 vector agrees\n")?;
    } else if report.vectors != 0 {
        put_decimal(alloc, text, report.vectors as usize)?;
        text.extend_from_slice(b" vectors agree\n")?;
    }
    Ok(())
}
