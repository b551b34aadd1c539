//! Bytes that a row can't show.

use std::alloc::Global;

/// The value of a hexadecimal digit.
fn digit(byte: u8) -> Option<u8> {
    match byte {
        b'0'..=b'9' => Some(byte - b'0'),
        b'a'..=b'f' => Some(byte - b'a' + 10),
        _ => None,
    }
}

/// The byte of two hexadecimal digits.
fn byte_of(high: u8, low: u8) -> Option<u8> {
    match (digit(high), digit(low)) {
        (Some(high), Some(low)) => Some(high.wrapping_mul(16).wrapping_add(low)),
        _ => None,
    }
}

/// The byte after a backslash, and what is left.
fn escaped(text: &[u8]) -> Option<(u8, &[u8])> {
    match text {
        [b'n', left @ ..] => Some((b'\n', left)),
        [b't', left @ ..] => Some((b'\t', left)),
        [b'r', left @ ..] => Some((b'\r', left)),
        [b'\\', left @ ..] => Some((b'\\', left)),
        [b'x', high, low, left @ ..] => match byte_of(*high, *low) {
            Some(byte) => Some((byte, left)),
            None => None,
        },
        _ => None,
    }
}

/// The first byte that a text reports, and what is left after it.
fn first_byte(text: &[u8]) -> Option<(u8, &[u8])> {
    match text {
        [b'\\', left @ ..] => escaped(left),
        [byte, left @ ..] => Some((*byte, left)),
        [] => None,
    }
}

/// The bytes of a row's text: `\n`, `\t`, `\r`, `\\` and `\xNN` are a byte each, and a text `\e` is empty. None for any
/// other escape, and if there is no memory.
pub fn unescaped(alloc: Global, text: &str) -> Option<Vec<u8>> {
    let mut bytes = Vec::new(alloc);
    if text == "\\e" {
        return Some(bytes);
    }
    let mut left = text.as_bytes();
    for _ in 0..text.len() {
        if left.is_empty() {
            break;
        }
        let (byte, rest) = first_byte(left)?;
        if bytes.push(byte).is_err() {
            return None;
        }
        left = rest;
    }
    Some(bytes)
}
