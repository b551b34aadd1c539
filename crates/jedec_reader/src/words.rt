//! The words of a field, which blanks part, and what one of them says.

ghost use Rattle.std.specs.Prelude.{◌≡◌, ◌+◌, ◌^◌, ◌<◌, ◌≤◌, ◌∷◌, [], ⊤, length, option_and_then, option_map, MatchOption};
ghost use Rattle.jedec_reader.specs.Prelude.{position_or_len, all_ascii_digits};
ghost use Rattle.jedec_file.specs.Fields as fields;
ghost use Rattle.jedec_file.specs.Frame as frame;

use crate::frame::four_hex_value;

/// The byte is a space, tab, carriage return or line feed.
pub fn is_blank(byte: u8) -> bool
    ensures { result ≡ fields.is_blank byte }
{
    byte == b' ' || byte == b'\t' || byte == b'\r' || byte == b'\n'
}

/// The text from the first byte on that is no blank.
#[tactic(auto, using(std::proofs::lemmas::List::drop_more))]
pub fn trimmed(text: &[u8]) -> &[u8]
    ensures text { result.now ≡ fields.trimmed text.now }
    ensures shorter { length result.now ≤ length text.now }
{
    for (place, byte) in text.iter().enumerate() {
        if !is_blank(*byte) {
            return text.split_at(place).1;
        }
    }
    text.split_at(text.len()).1
}

/// How many bytes precede the first blank.
fn word_len(text: &[u8]) -> usize
    ensures { result ≡ position_or_len fields.is_blank text.now }
{
    for (place, byte) in text.iter().enumerate() {
        if is_blank(*byte) {
            return place;
        }
    }
    text.len()
}

/// The first word, and the text after it.
pub fn first_word(text: &[u8]) -> Option<(&[u8], &[u8])>
    ensures words { MatchOption result
        (fields.words text.now ≡ [])
        (λ found. fields.words text.now ≡ found.0.now ∷ fields.words found.1.now) }
    ensures shorter { MatchOption result ⊤ (λ found. length found.1.now < length text.now) }
{
    let text = trimmed(text);
    if text.is_empty() {
        return None;
    }
    Some(text.split_at(word_len(text)))
}

/// The word, if there is just one.
pub fn only_word(text: &[u8]) -> Option<&[u8]>
    ensures { option_map (λ word. word.now) result ≡ fields.only (fields.words text.now) }
{
    let (word, rest) = first_word(text)?;
    match first_word(rest) {
        Some(_) => None,
        None => Some(word),
    }
}

/// The word is a decimal number, of any size.
#[tactic(auto, using(std::proofs::lemmas::List::drop_more))]
pub fn is_number(word: &[u8]) -> bool
    ensures { result ≡ all_ascii_digits word.now }
{
    for byte in word {
        if !byte.is_ascii_digit() {
            return false;
        }
    }
    true
}

/// The value of a decimal number below 65,536.
#[tactic(auto, using(std::proofs::lemmas::List::drop_more))]
pub fn short_number(word: &[u8]) -> Option<u16>
    ensures { result ≡ fields.short_number word.now }
{
    let mut number = 0u32;
    for byte in word {
        if !byte.is_ascii_digit() {
            return None;
        }
        number = 10 * number + u32::from(*byte - b'0');
        if number >= 65536 {
            return None;
        }
    }
    Some(number as u16)
}

/// The only word's number, if it is below 65,536.
pub fn only_number(text: &[u8]) -> Option<u16>
    ensures { result ≡ option_and_then fields.short_number (fields.only (fields.words text.now)) }
{
    short_number(only_word(text)?)
}

/// The value of the only word's four hexadecimal digits.
pub fn only_sum(text: &[u8]) -> Option<u16>
    ensures { result ≡ option_and_then frame.four_hex_value (fields.only (fields.words text.now)) }
{
    four_hex_value(only_word(text)?)
}

/// The only level.
pub fn only_level(text: &[u8]) -> Option<bool>
    ensures { result ≡ fields.one_level (fields.words text.now) }
{
    match only_word(text)? {
        [byte] => level_of(*byte),
        _ => None,
    }
}

/// The level that the byte is.
pub fn level_of(byte: u8) -> Option<bool>
    ensures { result ≡ fields.level_of byte }
{
    match byte {
        b'0' => Some(false),
        b'1' => Some(true),
        _ => None,
    }
}
