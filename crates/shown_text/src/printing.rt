//! Bytes as text that a terminal or a browser shows and doesn't obey.

ghost use Rattle.std.specs.Prelude.{◌≡◌, ◌<◌, ◌≤◌, ◌++◌, chars, flat_map, string_bytes, IfOk, OnOk};
ghost use Rattle.pld_base.specs.Digits.{hex_digit};
ghost use Rattle.shown_text.specs.Printable.{is_unseen, number_text, printable, shown_char};

use pld_base::OutOfMemory;
use std::alloc::Global;

/// Whether a character is invisible, or turns the order of the text.
fn is_unseen(char: char) -> bool
    ensures { result ≡ is_unseen char }
{
    matches!(
        char as u32,
        0xAD | 0x61C | 0x200B..=0x200F | 0x2028..=0x202E | 0x2060..=0x206F | 0xFEFF | 0xFFF9..=0xFFFB | 0xE0000..=0xE0FFF
    )
}

/// A hexadecimal digit, in upper case.
fn hex_digit(digit: u8) -> char
    requires { digit < 16 }
    ensures { result ≡ hex_digit digit }
{
    if digit < 10 {
        char::from(b'0' + digit)
    } else {
        char::from(b'A' - 10 + digit)
    }
}

/// Appends a control character by its number.
fn put_number(out: &mut String, number: u8) -> Result<(), OutOfMemory>
    ensures { OnOk result (string_bytes out.new ≡ string_bytes out.old ++ number_text number) }
{
    out.push_str("\\x")?;
    out.push(hex_digit(number / 16))?;
    out.push(hex_digit(number % 16))?;
    Ok(())
}

/// Appends a character as it is shown.
fn put_char(out: &mut String, char: char) -> Result<(), OutOfMemory>
    ensures { OnOk result (string_bytes out.new ≡ string_bytes out.old ++ shown_char char) }
{
    if char != '\t' && char.is_control() {
        return put_number(out, char as u8);
    }
    let seen = if is_unseen(char) {
        char::REPLACEMENT_CHARACTER
    } else {
        char
    };
    out.push(seen)?;
    Ok(())
}

/// A text as it is shown.
fn shown(alloc: Global, text: &str) -> Result<String, OutOfMemory>
    ensures { IfOk result (λ s. string_bytes s ≡ flat_map shown_char (chars text.now)) }
{
    let mut shown = String::new(alloc);
    for char in text.chars() {
        put_char(&mut shown, char)?;
    }
    Ok(shown)
}

/// Bytes as they are shown: a control character by its number, as `\x1B`; what is no UTF-8, is invisible or turns the order of
/// the text by U+FFFD. A tab stays.
pub fn printable(alloc: Global, bytes: &[u8]) -> Result<String, OutOfMemory>
    ensures { IfOk result (λ s. string_bytes s ≡ printable bytes.now) }
{
    let text = String::from_utf8_lossy(alloc, bytes)?;
    shown(alloc, text.as_str())
}
