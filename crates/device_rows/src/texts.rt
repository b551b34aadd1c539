//! Fuses, sets of numbers and fields of rows as text, in which `-` represents nothing.

ghost use Rattle.std.specs.Prelude.{◌≡◌, IfSome, length};

use pld_device::Fuses;
use std::alloc::{AllocError, Global};
use test_rows::{Found, Row};

/// A part of a row without the blanks around it; empty if there isn't one.
fn trimmed<'a>(part: Option<&'a str>) -> &'a str {
    part.unwrap_or("").trim()
}

/// The fields of a row, which `|` parts; those that are missing are empty.
pub fn fields_of<'a>(input: &'a str) -> [&'a str; 5] {
    let mut parts = input.split('|');
    [
        trimmed(parts.next()),
        trimmed(parts.next()),
        trimmed(parts.next()),
        trimmed(parts.next()),
        trimmed(parts.next()),
    ]
}

/// The text of several lines, one right after the other.
pub fn joined(alloc: Global, lines: &[Row<'_>]) -> Result<String, AllocError> {
    let mut text = String::new(alloc);
    for line in lines {
        text.push_str(line.text)?;
    }
    Ok(text)
}

/// The levels of a text, in which only 0 and 1 count.
pub fn levels_of(alloc: Global, text: &str) -> Result<Vec<bool>, AllocError> {
    let mut levels = Vec::new(alloc);
    for byte in text.bytes() {
        if byte == b'0' || byte == b'1' {
            levels.push(byte == b'1')?;
        }
    }
    Ok(levels)
}

/// The fuses of a text, if they are as many as these.
pub fn fuses_of(alloc: Global, text: &str, size: usize) -> Option<Fuses>
    ensures { IfSome result (λ f. length f ≡ size) }
{
    match levels_of(alloc, text) {
        Ok(levels) if levels.len() == size => Some(Fuses::from_levels(levels)),
        _ => None,
    }
}

/// Appends levels, each as 0 or 1.
pub fn put_levels(levels: &[bool], found: &mut Found) {
    for level in levels {
        found.text(if *level { "1" } else { "0" });
    }
}

/// Appends numbers with blanks between them.
pub fn put_numbers(numbers: &[u8], found: &mut Found) {
    if numbers.is_empty() {
        found.text("-");
    }
    for (place, number) in numbers.iter().enumerate() {
        if place != 0 {
            found.text(" ");
        }
        found.number(usize::from(*number));
    }
}

/// The bits with these numbers.
pub fn bits_of(numbers: &str) -> u32 {
    let mut bits = 0u32;
    for word in numbers.split_whitespace() {
        match word.parse::<u8>() {
            Ok(number) if number < 32 => bits |= 1 << number,
            _ => {}
        }
    }
    bits
}

/// Appends the numbers of the bits that are 1.
pub fn put_bits(bits: u32, found: &mut Found) {
    let mut is_first = true;
    for number in 0..32u8 {
        if bits >> number & 1 == 1 {
            if !is_first {
                found.text(" ");
            }
            found.number(usize::from(number));
            is_first = false;
        }
    }
    if is_first {
        found.text("-");
    }
}
