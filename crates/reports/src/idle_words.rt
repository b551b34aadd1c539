//! Words of ISTYPE that do nothing.

ghost use Rattle.std.specs.Prelude.{◌≡◌, ◌++◌, ◌∷◌, ◌<◌, OnOk, filter_map, length, option_to_list, position};
ghost use Rattle.std.specs.List.{flat_map};
ghost use Rattle.abel_tree.specs.View.{view_decl};
ghost use Rattle.reports.specs.Warnings.{idle_in, idle_in_string, idle_word, is_idle, is_separator, words_in};

use crate::warning::{Cause, Found};
use abel_tree::{Decl, Word};
use pld_base::{OutOfMemory, Place};

/// Whether a byte is between words.
fn is_separator(byte: u8) -> bool
    ensures { result ≡ is_separator byte }
{
    matches!(byte, b',' | b' ' | b'\'' | 9 | 10 | 12 | 13 | 26)
}

/// Whether a word may be in a string and has no effect.
fn is_idle(word: &[u8]) -> bool
    ensures { result ≡ is_idle word.now }
{
    word.eq_ignore_ascii_case(b"pos")
        || word.eq_ignore_ascii_case(b"neg")
        || word.eq_ignore_ascii_case(b"keep")
        || word.eq_ignore_ascii_case(b"collapse")
        || word.eq_ignore_ascii_case(b"retain")
}

/// If the first separator of a text is.
fn first_separator(text: &[u8]) -> Option<usize>
    ensures { result ≡ position is_separator text.now }
{
    text.iter().position(|byte| is_separator(*byte))
}

/// The bytes in front of the first separator, and those after it.
fn next_word(text: &[u8]) -> (&[u8], &[u8])
    requires { 0 < length text.now }
    ensures less { length result.1.now < length text.now }
    ensures words { words_in text.now ≡ result.0.now ∷ words_in result.1.now }
{
    let length = match first_separator(text) {
        Some(length) => length,
        None => return (text, b""),
    };
    let (word, behind) = text.split_at(length);
    (word, behind.split_at(1).1)
}

/// Gives a word that is idle.
fn find_idle_word(found: &mut Found, word: &[u8], place: Place) -> Result<(), OutOfMemory>
    ensures { OnOk result (found.new ≡ found.old ++ option_to_list (idle_word place word.now)) }
{
    if is_idle(word) {
        found.add(Cause::IdleWord, place, word)?;
    }
    Ok(())
}

/// Finds the idle words of a string.
fn find_in_string(found: &mut Found, string: &Word) -> Result<(), OutOfMemory>
    ensures { OnOk result (found.new ≡ found.old ++ idle_in_string string.now) }
{
    let mut rest = string.text.bytes();
    'words: while !rest.is_empty() {
        let (word, behind) = next_word(rest);
        find_idle_word(found, word, string.place)?;
        rest = behind;
    }
    Ok(())
}

/// Finds the idle words of strings.
fn find_in_strings(found: &mut Found, strings: &[Word]) -> Result<(), OutOfMemory>
    ensures { OnOk result (found.new ≡ found.old ++ flat_map idle_in_string strings.now) }
{
    for string in strings {
        find_in_string(found, string)?;
    }
    Ok(())
}

/// Finds the idle words of a declaration.
pub fn find_idle_words(found: &mut Found, decl: &Decl) -> Result<(), OutOfMemory>
    ensures { OnOk result (found.new ≡ found.old ++ idle_in (view_decl decl.now)) }
{
    match decl {
        Decl::Pins { attributes, .. }
        | Decl::Nodes { attributes, .. }
        | Decl::Attributes { attributes, .. } => find_in_strings(found, attributes.as_slice()),
        _ => Ok(()),
    }
}
