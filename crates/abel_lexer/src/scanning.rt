//! The tokens of a text.

ghost use Rattle.std.specs.Prelude.{◌≡◌, ◌+◌, ◌^◌, ◌<◌, ◌≤◌, ◌⊎◌, ◌-◌, length, take, None, Some, IfOk, IfErr, IfSome, IfNone};
ghost use Rattle.abel_lexer.specs.declared.fault.ScanFault.TheVariants.{OutOfMemory};
ghost use Rattle.abel_lexer.specs.Kinds.{fault_of, value_of};
ghost use Rattle.abel_lexer.specs.Lengths as lengths;
ghost use Rattle.abel_lexer.specs.Remainders.{IsTokenAt, IsFaultAt};
ghost use Rattle.abel_lexer.specs.Scans.{place_past, IsTokensOf, AreOnlyTokens, IsFirstFault, IsOnlyFault};

use crate::fault::ScanFault;
use crate::keyword::{is_left_out, is_taken_extension, is_taken_special};
use crate::length::{blank_len, longest_at};
use crate::number::number_value;
use crate::radix_form::radix_at;
use crate::token::{Token, TokenKind};
use pld_base::{NameText, Place};
use std::alloc::Global;

/// The place after these bytes.
pub fn place_past(from: Place, bytes: &[u8]) -> Place
    requires line { from.line + length bytes.now < 2 ^ 32 }
    requires first { 1 ≤ from.column }
    requires column { from.column + length bytes.now < 2 ^ 32 }
    ensures value { result ≡ place_past from bytes.now }
    ensures line { result.line ≤ from.line + length bytes.now }
    ensures column { result.column ≤ from.column + length bytes.now }
    ensures first { 1 ≤ result.column }
{
    let mut place = from;
    for byte in bytes {
        if *byte == b'\n' {
            place.line += 1;
            place.column = 1;
        } else {
            place.column += 1;
        }
    }
    place
}

/// The value of a token that is at a place: what a number says, else 0; or what is wrong with it.
fn token_value(radix: u32, kind: TokenKind, word: &[u8], place: Place) -> Result<u32, ScanFault>
    requires low { 2 ≤ radix }
    requires high { radix ≤ 16 }
    ensures value { IfOk result (λ n. n ≡ value_of radix kind word.now) }
    ensures sound { IfOk result (λ n. fault_of radix kind word.now place ≡ None) }
    ensures fault { IfErr result (λ f. fault_of radix kind word.now place ≡ Some f) }
{
    match kind {
        TokenKind::Identifier if word.len() > 31 => Err(ScanFault::LongName(place)),
        TokenKind::Keyword if is_left_out(word) => Err(ScanFault::Unsupported(place)),
        TokenKind::Special if !is_taken_special(word) => Err(ScanFault::Unsupported(place)),
        TokenKind::Extension if !is_taken_extension(word) => Err(ScanFault::Unsupported(place)),
        TokenKind::Number => number_value(radix, word).ok_or(ScanFault::BadNumber(place)),
        TokenKind::Identifier
        | TokenKind::Keyword
        | TokenKind::Special
        | TokenKind::Extension
        | TokenKind::Text
        | TokenKind::Sign
        | TokenKind::Directive => Ok(0),
    }
}

/// The token at the front of a text that begins with no `@RADIX` form, and what follows it.
fn token_at(
    alloc: Global,
    place: Place,
    radix: u32,
    front: &[u8],
) -> Result<(Token, &[u8]), ScanFault>
    requires long { length front.now ≤ 1048576 }
    requires some { 0 < length front.now }
    requires low { 2 ≤ radix }
    requires high { radix ≤ 16 }
    requires plain { lengths.radix_at radix front.now ≡ None }
    ensures token { IfOk result (λ t. IsTokenAt place radix front.now t.0 t.1.now) }
    ensures fault { IfErr result (λ f. (f ≡ OutOfMemory) ⊎ IsFaultAt place radix front.now f) }
{
    let (kind, count) = longest_at(front);
    if count == 0 {
        return Err(ScanFault::NotText(place));
    }
    let (word, behind) = front.split_at(count);
    let value = token_value(radix, kind, word, place)?;
    let text = NameText::new(alloc, word)?;
    let token = Token {
        kind,
        text,
        place,
        value,
    };
    Ok((token, behind))
}

/// The bytes of a text that precede an end of it.
fn before<'a>(front: &'a [u8], behind: &[u8]) -> &'a [u8]
    requires { length behind.now ≤ length front.now }
    ensures { result.now ≡ take (length front.now - length behind.now) front.now }
{
    front.split_at(front.len() - behind.len()).0
}

/// The tokens of a text, in order, or the first thing that is wrong with it.
pub fn scan(alloc: Global, text: &[u8]) -> Result<Vec<Token>, ScanFault>
    requires { length text.now ≤ 1048576 }
    ensures tokens { IfOk result (λ ts. IsTokensOf text.now ts.items) }
    ensures only { IfOk result (λ ts. AreOnlyTokens text.now ts.items) }
    ensures fault { IfErr result (λ f. (f ≡ OutOfMemory) ⊎ IsFirstFault text.now f) }
    ensures only_fault { IfErr result (λ f. (f ≡ OutOfMemory) ⊎ IsOnlyFault text.now f) }
{
    let mut tokens = Vec::new(alloc);
    let mut rest = text;
    let mut place = Place { line: 1, column: 1 };
    let mut radix = 10;
    'lexemes: loop {
        let (gap, front) = rest.split_at(blank_len(rest));
        place = place_past(place, gap);
        if front.is_empty() {
            return Ok(tokens);
        }
        if let Some((known, behind)) = radix_at(radix, front) {
            place = place_past(place, before(front, behind));
            radix = known;
            rest = behind;
        } else {
            let (token, behind) = token_at(alloc, place, radix, front)?;
            place = place_past(place, token.text.bytes());
            tokens.push(token)?;
            rest = behind;
        }
    }
}
