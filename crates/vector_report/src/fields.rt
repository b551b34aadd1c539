//! The fields of a fuse file that speak of its vectors.

use jedec_reader::{place_of, trimmed};

/// Whether a field, which may have blanks before its letter, has this letter.
pub fn is_of(field: &[u8], letter: u8) -> bool {
    trimmed(field).first().copied() == Some(letter)
}

/// Whether a field counts vectors.
fn counts_vectors(field: &[u8]) -> bool {
    match trimmed(field) {
        [b'Q', text @ ..] => is_of(text, b'V'),
        _ => false,
    }
}

/// Whether a field says a vector, how many there are, or the order of their pins.
pub fn is_replaced(field: &[u8]) -> bool {
    is_of(field, b'V') || is_of(field, b'P') || counts_vectors(field)
}

/// A field and what follows its asterisk. None if no asterisk is left.
pub fn split(text: &[u8]) -> Option<(&[u8], &[u8])> {
    let length = place_of(text, b'*')?;
    let (field, rest) = text.split_at(length);
    Some((field, rest.split_first()?.1))
}
