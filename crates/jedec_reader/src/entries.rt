//! What the words of a field list: levels, pins, characters.

ghost use Rattle.std.specs.Prelude.{◌≡◌, option_map, IfOk};
ghost use Rattle.jedec_reader.specs.Prelude.{list_all, range_with_len};
ghost use Rattle.jedec_file.specs.Fields as fields;
ghost use Rattle.jedec_reader.specs.FieldTexts.{characters_in, levels_in, pin_number, pins_in};

use crate::words::{first_word, is_blank, level_of, short_number};
use std::alloc::{AllocError, Global};

/// The levels that all bytes of the words are, a byte for each; `None` if one of them is no level.
/// Takes memory once.
#[tactic(auto, using(std::proofs::lemmas::List::drop_more, crate::proofs::EntryLemmas::each_next, crate::proofs::EntryLemmas::each_none,))]
pub fn levels(alloc: Global, text: &[u8]) -> Result<Option<Vec<bool>>, AllocError>
    ensures { IfOk result (λ found. option_map (λ v. v.items) found ≡ levels_in text.now) }
{
    let mut levels = Vec::with_capacity(alloc, text.len())?;
    for byte in text {
        if !is_blank(*byte) {
            match level_of(*byte) {
                Some(level) => levels.push(level)?,
                None => return Ok(None),
            }
        }
    }
    Ok(Some(levels))
}

/// All bytes of the words. Takes memory once.
#[tactic(auto, using(std::proofs::lemmas::List::drop_more))]
pub fn characters(alloc: Global, text: &[u8]) -> Result<Vec<u8>, AllocError>
    ensures { IfOk result (λ v. v.items ≡ characters_in text.now) }
{
    let mut characters = Vec::with_capacity(alloc, text.len())?;
    for byte in text {
        if !is_blank(*byte) {
            characters.push(*byte)?;
        }
    }
    Ok(characters)
}

/// The numbers that the words are, each below 256; `None` if one of them isn't one.
#[tactic(auto, using(crate::proofs::EntryLemmas::each_next, crate::proofs::EntryLemmas::each_none))]
pub fn pin_numbers(alloc: Global, text: &[u8]) -> Result<Option<Vec<u8>>, AllocError>
    ensures { IfOk result (λ found. option_map (λ v. v.items) found ≡ pins_in text.now) }
{
    let mut pins = Vec::new(alloc);
    let mut rest = text;
    while let Some((word, behind)) = first_word(rest) {
        let Some(pin) = pin_number(word) else {
            return Ok(None);
        };
        pins.push(pin)?;
        rest = behind;
    }
    Ok(Some(pins))
}

fn pin_number(word: &[u8]) -> Option<u8>
    ensures { result ≡ pin_number word.now }
{
    let number = short_number(word)?;
    if number < 256 {
        Some(number as u8)
    } else {
        None
    }
}

/// The numbers are those of the pins, each once.
pub fn is_each_pin(pins: u8, order: &[u8]) -> bool
    ensures { result ≡ fields.is_each_pin pins order.now }
{
    order.len() == usize::from(pins) && all_among(pins, order)
}

/// Each of the numbers from 1 to `pins` is among those of the order.
fn all_among(pins: u8, order: &[u8]) -> bool
    ensures { result ≡ list_all (fields.is_among order.now) (range_with_len 1 pins) }
{
    for before in 0..pins {
        if !is_among(order, before + 1) {
            return false;
        }
    }
    true
}

/// The byte is among those of the text.
#[tactic(auto, using(std::proofs::lemmas::List::drop_more))]
pub fn is_among(text: &[u8], byte: u8) -> bool
    ensures { result ≡ fields.is_among text.now byte }
{
    for other in text {
        if *other == byte {
            return true;
        }
    }
    false
}

/// All characters are those of test vectors.
pub fn are_test_characters(characters: &[u8]) -> bool
    ensures { result ≡ list_all fields.is_test_char characters.now }
{
    are_among(b"01CKHLZXNF23456789BPUD", characters)
}

/// Each byte is among those of the text.
#[tactic(auto, using(std::proofs::lemmas::List::drop_more))]
fn are_among(text: &[u8], bytes: &[u8]) -> bool
    ensures { result ≡ list_all (fields.is_among text.now) bytes.now }
{
    for byte in bytes {
        if !is_among(text, *byte) {
            return false;
        }
    }
    true
}
