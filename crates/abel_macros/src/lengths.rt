//! How long the names, numbers and extensions ahead are.

ghost use Rattle.std.specs.Prelude.{◌≡◌, ◌≤◌, length};
ghost use Rattle.abel_macros.specs.Prelude.{prefix_len, ahead, is_name_later, word_head, number_head, marked_head, extension_head, shaped_len, number_len, larger};
ghost use Rattle.std.specs.Char.{is_ascii_alphanumeric};

use crate::gaps::skip_byte;
use abel_lexer::{begins_marked, is_name_first, is_name_later};
use text_pieces::Ahead;

/// How many of the next bytes may follow in a name.
pub fn later_len(at: &Ahead) -> usize
    ensures value { result ≡ prefix_len is_name_later (ahead at.now) }
    ensures within { result ≤ length (ahead at.now) }
{
    at.fits();
    let mut look = at.fork();
    let mut count = 0;
    'bytes: while let Some(byte) = look.peek() {
        if !is_name_later(byte) {
            return count;
        }
        let _byte = look.step();
        count += 1;
    }
    count
}

/// How many of the next bytes are letters or digits.
fn alphanumeric_len(at: &Ahead) -> usize
    ensures value { result ≡ prefix_len is_ascii_alphanumeric (ahead at.now) }
    ensures within { result ≤ length (ahead at.now) }
{
    at.fits();
    let mut look = at.fork();
    let mut count = 0;
    'bytes: while let Some(byte) = look.peek() {
        if !byte.is_ascii_alphanumeric() {
            return count;
        }
        let _byte = look.step();
        count += 1;
    }
    count
}

/// How long the name or keyword ahead is; 0 if there isn't one.
pub fn word_len(at: &Ahead) -> usize
    ensures value { result ≡ shaped_len word_head is_name_later (ahead at.now) }
    ensures within { result ≤ length (ahead at.now) }
{
    at.fits();
    let mut look = at.fork();
    match look.step() {
        Some(first) if is_name_first(first) => 1 + later_len(&look),
        _ => 0,
    }
}

/// How long the number in the radix in force is that is ahead; 0 if there isn't one.
fn digits_len(at: &Ahead) -> usize
    ensures value { result ≡ shaped_len number_head is_ascii_alphanumeric (ahead at.now) }
    ensures within { result ≤ length (ahead at.now) }
{
    at.fits();
    let mut look = at.fork();
    match look.step() {
        Some(first) if first.is_ascii_digit() => 1 + alphanumeric_len(&look),
        _ => 0,
    }
}

/// How long the number with its radix is that is ahead; 0 if there isn't one.
fn marked_len(at: &Ahead) -> usize
    ensures value { result ≡ shaped_len marked_head is_ascii_alphanumeric (ahead at.now) }
    ensures within { result ≤ length (ahead at.now) }
{
    at.fits();
    let mut look = at.fork();
    let Some(first) = look.step() else {
        return 0;
    };
    let Some(second) = look.step() else {
        return 0;
    };
    let Some(third) = look.step() else {
        return 0;
    };
    if begins_marked(first, second, third) {
        3 + alphanumeric_len(&look)
    } else {
        0
    }
}

/// How long the number ahead is; 0 if there isn't one.
pub fn number_len(at: &Ahead) -> usize
    ensures value { result ≡ number_len (ahead at.now) }
    ensures within { result ≤ length (ahead at.now) }
{
    larger(digits_len(at), marked_len(at))
}

/// How long the extension ahead is; 0 if there isn't one.
pub fn extension_len(at: &Ahead) -> usize
    ensures value { result ≡ shaped_len extension_head is_name_later (ahead at.now) }
    ensures within { result ≤ length (ahead at.now) }
{
    at.fits();
    let mut look = at.fork();
    if !skip_byte(&mut look, b'.') {
        return 0;
    }
    match look.step() {
        Some(first) if is_name_first(first) => 2 + later_len(&look),
        _ => 0,
    }
}

/// The larger of two lengths.
pub fn larger(first: usize, second: usize) -> usize
    ensures { result ≡ larger first second }
{
    if first < second { second } else { first }
}
