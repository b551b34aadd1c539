//! How long the token at the front is: the longest of the kinds.

ghost use Rattle.std.specs.Prelude.{◌≡◌, ◌≤◌, ◌==◌, ◌&&◌, ◌∷◌, [], ℕ, List, codes, nat_eq, not, false, length, take};
ghost use Rattle.std.specs.List.{prefix_len, starts_with};
ghost use Rattle.std.specs.Char.{is_ascii_digit, is_ascii_alphanumeric};
ghost use Rattle.abel_lexer.specs.Bytes.{quote, backslash, is_blank, is_name_first, is_name_later, is_letter, is_radix_letter};
ghost use Rattle.abel_lexer.specs.Kinds.{no_byte, word_head, number_head, marked_head, extension_head, letter_special, voltage_special, directives};
ghost use Rattle.abel_lexer.specs.Keywords.{is_listed};
ghost use Rattle.abel_lexer.specs.Signs.{signs};
ghost use Rattle.abel_lexer.specs.Lengths as spec;

use crate::bytes::{is_blank, is_name_first, is_name_later, is_radix_letter};
use crate::keyword::{is_directive, word_kind};
use crate::token::TokenKind;

/// How many blanks are at the front.
pub fn blank_len(bytes: &[u8]) -> usize
    ensures value { result ≡ prefix_len is_blank bytes.now }
    ensures within { result ≤ length bytes.now }
{
    bytes.iter().take_while(|byte| is_blank(**byte)).count()
}

fn later_len(bytes: &[u8]) -> usize
    ensures value { result ≡ prefix_len is_name_later bytes.now }
    ensures within { result ≤ length bytes.now }
{
    bytes
        .iter()
        .take_while(|byte| is_name_later(**byte))
        .count()
}

fn alphanumeric_len(bytes: &[u8]) -> usize
    ensures value { result ≡ prefix_len is_ascii_alphanumeric bytes.now }
    ensures within { result ≤ length bytes.now }
{
    bytes
        .iter()
        .take_while(|byte| byte.is_ascii_alphanumeric())
        .count()
}

fn word_len(bytes: &[u8]) -> usize
    ensures value { result ≡ spec.shaped_len word_head is_name_later bytes.now }
    ensures within { result ≤ length bytes.now }
{
    match bytes {
        [first, rest @ ..] if is_name_first(*first) => 1 + later_len(rest),
        _ => 0,
    }
}

fn digits_len(bytes: &[u8]) -> usize
    ensures { result ≡ spec.shaped_len number_head is_ascii_alphanumeric bytes.now }
{
    match bytes {
        [first, rest @ ..] if first.is_ascii_digit() => 1 + alphanumeric_len(rest),
        _ => 0,
    }
}

/// Whether a number that names its radix begins with these three bytes.
pub fn begins_marked(first: u8, second: u8, third: u8) -> bool
    ensures { result ≡ (first == 94 && (is_radix_letter second && is_ascii_alphanumeric third)) }
{
    first == b'^' && is_radix_letter(second) && third.is_ascii_alphanumeric()
}

fn marked_len(bytes: &[u8]) -> usize
    ensures { result ≡ spec.shaped_len marked_head is_ascii_alphanumeric bytes.now }
{
    match bytes {
        [first, second, third, rest @ ..] if begins_marked(*first, *second, *third) => {
            3 + alphanumeric_len(rest)
        }
        _ => 0,
    }
}

/// How long the number at the front is; 0 if there isn't one.
#[tactic(auto, using(crate::proofs::Longest::number_fits))]
pub fn number_len(bytes: &[u8]) -> usize
    ensures value { result ≡ spec.number_len bytes.now }
    ensures within { result ≤ length bytes.now }
{
    larger(digits_len(bytes), marked_len(bytes))
}

fn larger(first: usize, second: usize) -> usize
    ensures { result ≡ spec.larger first second }
{
    if first < second { second } else { first }
}

fn extension_len(bytes: &[u8]) -> usize
    ensures { result ≡ spec.shaped_len extension_head is_name_later bytes.now }
{
    match bytes {
        [b'.', first, rest @ ..] if is_name_first(*first) => 2 + later_len(rest),
        _ => 0,
    }
}

/// How long the letter between dots at the front is; 0 if there isn't one.
#[tactic(auto, using(crate::proofs::Munches::none_passes))]
pub fn letter_special_len(bytes: &[u8]) -> usize
    ensures { result ≡ spec.shaped_len letter_special no_byte bytes.now }
{
    match bytes {
        [b'.', letter, b'.', ..] if letter.is_ascii_alphabetic() => 3,
        _ => 0,
    }
}

/// Whether these bytes are `SV`, in either case, and a digit.
fn names_voltage(first: u8, second: u8, third: u8) -> bool
    ensures { result ≡ (is_letter 115 first && (is_letter 118 second && is_ascii_digit third)) }
{
    first.eq_ignore_ascii_case(&b's')
        && second.eq_ignore_ascii_case(&b'v')
        && third.is_ascii_digit()
}

/// How long the `.SV`, digit and dot at the front are; 0 if they aren't there.
#[tactic(auto, using(crate::proofs::Munches::none_passes))]
pub fn voltage_special_len(bytes: &[u8]) -> usize
    ensures { result ≡ spec.shaped_len voltage_special no_byte bytes.now }
{
    match bytes {
        [b'.', first, second, third, b'.', ..] if names_voltage(*first, *second, *third) => 5,
        _ => 0,
    }
}

fn special_len(bytes: &[u8]) -> usize
    ensures { result ≡ spec.special_len bytes.now }
{
    larger(letter_special_len(bytes), voltage_special_len(bytes))
}

/// Whether a byte is the closing quote, if a backslash may have taken it.
fn closes(taken: bool, byte: u8) -> bool
    ensures { result ≡ (not taken && byte == quote) }
{
    !taken && byte == b'\''
}

/// Whether a byte is a backslash that takes the next one.
fn takes_next(taken: bool, byte: u8) -> bool
    ensures { result ≡ (not taken && byte == backslash) }
{
    !taken && byte == b'\\'
}

/// The end of the closing quote in a text whose first byte is a quote; 0 if there isn't one.
fn quote_end(bytes: &[u8]) -> usize
    requires { length bytes.now ≤ 1048576 }
    ensures { result ≡ spec.quote_end 1 false bytes.now }
{
    let mut end = 1;
    let mut taken = false;
    for byte in bytes {
        end += 1;
        if closes(taken, *byte) {
            return end;
        }
        taken = takes_next(taken, *byte);
    }
    0
}

fn quoted_len(bytes: &[u8]) -> usize
    requires { length bytes.now ≤ 1048576 }
    ensures { result ≡ spec.quoted_len bytes.now }
{
    match bytes {
        [] => 0,
        [first, rest @ ..] => { if *first == b'\'' { quote_end(rest) } else { 0 } }
    }
}

/// How long the sign is that is one byte; 0 if it isn't one.
fn short_sign_len(byte: u8) -> usize
    ensures { result ≡ spec.listed_len signs (byte ∷ []) }
{
    match byte {
        b'(' | b')' | b'[' | b']' | b'{' | b'}' | b',' | b';' | b':' | b'=' | b'!' | b'&' => 1,
        b'#' | b'$' | b'+' | b'-' | b'*' | b'/' | b'%' | b'<' | b'>' => 1,
        _ => 0,
    }
}

/// How long the sign at the front is, if two bytes begin the text; 0 if there isn't one.
fn long_sign_len(first: u8, second: u8) -> usize
    ensures { (rest : List ℕ) → starts_with nat_eq (first ∷ second ∷ rest) (codes "?:=") ≡ false → result ≡ spec.listed_len signs (first ∷ second ∷ rest) }
{
    match (first, second) {
        (b':', b'=') => 2,
        (b'?', b'=') => 2,
        (b'!', b'$') => 2,
        (b'<', b'<') => 2,
        (b'>', b'>') => 2,
        (b'=', b'=') => 2,
        (b'!', b'=') => 2,
        (b'<', b'=') => 2,
        (b'>', b'=') => 2,
        (b'-', b'>') => 2,
        (b':', b'>') => 2,
        (b'.', b'.') => 2,
        _ => short_sign_len(first),
    }
}

/// How long the sign at the front is; 0 if there isn't one.
pub fn sign_len(bytes: &[u8]) -> usize
    ensures { result ≡ spec.listed_len signs bytes.now }
{
    match bytes {
        [] => 0,
        [byte] => short_sign_len(*byte),
        [b'?', b':', b'=', ..] => 3,
        [first, second, ..] => long_sign_len(*first, *second),
    }
}

/// The first six bytes, or all if there are fewer.
#[tactic(auto, using(crate::proofs::Munches::all_taken))]
pub fn first_six(bytes: &[u8]) -> &[u8]
    ensures { result.now ≡ take 6 bytes.now }
{
    if bytes.len() < 6 {
        bytes
    } else {
        bytes.split_at(6).0
    }
}

fn directive_len(bytes: &[u8]) -> usize
    ensures { result ≡ spec.directive_len bytes.now }
{
    if is_directive(first_six(bytes)) { 6 } else { 0 }
}

fn word_at(bytes: &[u8]) -> (TokenKind, usize)
    ensures { result ≡ spec.word_at bytes.now }
{
    let count = word_len(bytes);
    let (word, _rest) = bytes.split_at(count);
    (word_kind(word), count)
}

fn longer(first: (TokenKind, usize), second: (TokenKind, usize)) -> (TokenKind, usize)
    ensures { result ≡ spec.longer first second }
{
    if first.1 < second.1 { second } else { first }
}

#[tactic(auto, unfolding(crate::specs::Lengths::longest_word))]
fn longest_word(bytes: &[u8]) -> (TokenKind, usize)
    ensures { result ≡ spec.longest_word bytes.now }
{
    let number = (TokenKind::Number, number_len(bytes));
    let special = (TokenKind::Special, special_len(bytes));
    let extension = (TokenKind::Extension, extension_len(bytes));
    longer(longer(word_at(bytes), number), longer(special, extension))
}

/// The kind and the length of the longest token at the front, of length 0 if there isn't one.
#[tactic(auto, unfolding(crate::specs::Lengths::longest_at), using(crate::proofs::Longest::fits))]
pub fn longest_at(bytes: &[u8]) -> (TokenKind, usize)
    requires { length bytes.now ≤ 1048576 }
    ensures value { result ≡ spec.longest_at bytes.now }
    ensures within { result.1 ≤ length bytes.now }
{
    let text = (TokenKind::Text, quoted_len(bytes));
    let sign = (TokenKind::Sign, sign_len(bytes));
    let directive = (TokenKind::Directive, directive_len(bytes));
    longer(longest_word(bytes), longer(text, longer(sign, directive)))
}
