//! What the strings of ISTYPE say.

ghost use Rattle.std.specs.Prelude.{◌≡◌, ◌-◌, ℕ, List, [], ◌∷◌, ◌++◌, drop, take, length, map, filter, not, ◌==◌, bytes_eq, codes};
ghost use Rattle.decls.specs.Prelude.{str_to_ascii_lowercase, parts_words, words_of, has_word, said_words, said_by_either};
ghost use Rattle.decls.specs.Attributes.{known_words, idle_words};
ghost use Rattle.decls.specs.Shown.{view_said};
ghost use Rattle.decls.specs.Pieces.{Tells, lower_words};

use crate::said::{NOTHING, Said};

/// The bytes between the quotes of a string.
pub(crate) fn without_quotes(text: &[u8]) -> &[u8]
    ensures { result.now ≡ drop 1 (take (length text.now - 1) text.now) }
{
    if text.len() < 2 {
        return &[];
    }
    &text[1..text.len() - 1]
}

/// Whether the byte is between words: a comma or a blank.
fn is_separator(c: u8) -> bool
    ensures { result ≡ parts_words c }
{
    matches!(c, b',' | b' ' | 9 | 10 | 12 | 13 | 26)
}

/// Whether the word is this one, without regard to case.
fn is_word(word: &[u8], known: &[u8]) -> bool
    ensures said { result ≡ bytes_eq (str_to_ascii_lowercase known.now) (str_to_ascii_lowercase word.now) }
    ensures known { result ≡ bytes_eq (str_to_ascii_lowercase word.now) (str_to_ascii_lowercase known.now) }
{
    word.eq_ignore_ascii_case(known)
}

/// Whether the word may be in a string and has no effect.
fn is_idle(word: &[u8]) -> bool
    ensures { result ≡ has_word idle_words (str_to_ascii_lowercase word.now) }
{
    is_word(word, b"pos")
        || is_word(word, b"neg")
        || is_word(word, b"keep")
        || is_word(word, b"collapse")
        || is_word(word, b"retain")
}

/// What one word says.
fn word_says(word: &[u8]) -> Said
    ensures { view_said result ≡ said_words (str_to_ascii_lowercase word.now ∷ []) }
{
    Said {
        combinational: is_word(word, b"com"),
        registered: is_word(word, b"reg") || is_word(word, b"reg_d"),
        buffer: is_word(word, b"buffer"),
        invert: is_word(word, b"invert"),
        dc: is_word(word, b"dc"),
    }
}

/// Whether the word says something or is idle.
fn is_known_word(word: &[u8]) -> bool
    ensures { result ≡ has_word known_words (str_to_ascii_lowercase word.now) }
{
    is_word(word, b"com")
        || is_word(word, b"reg")
        || is_word(word, b"reg_d")
        || is_word(word, b"buffer")
        || is_word(word, b"invert")
        || is_word(word, b"dc")
        || is_idle(word)
}

/// What the words of a string say, and whether one of them is unknown.
#[derive(Clone, Copy, PartialEq, Eq)]
pub(crate) struct StringWords {
    pub(crate) said: Said,
    pub(crate) unknown: bool,
}

/// What either says.
pub(crate) fn said_by_both(one: Said, other: Said) -> Said
    ensures { view_said result ≡ said_by_either (view_said one) (view_said other) }
{
    Said {
        combinational: one.combinational || other.combinational,
        registered: one.registered || other.registered,
        buffer: one.buffer || other.buffer,
        invert: one.invert || other.invert,
        dc: one.dc || other.dc,
    }
}

/// The words with one more.
fn with_word(words: StringWords, word: &[u8]) -> StringWords
    ensures { (ps : List (List ℕ)) → Tells words (lower_words ps) → Tells result (lower_words ps ++ str_to_ascii_lowercase word.now ∷ []) }
{
    StringWords {
        said: said_by_both(words.said, word_says(word)),
        unknown: words.unknown || !is_known_word(word),
    }
}

/// The words with one more piece between separators, which is no word if it is empty.
fn with_piece(words: StringWords, piece: &[u8]) -> StringWords
    ensures { (ps : List (List ℕ)) → Tells words (lower_words ps) → Tells result (lower_words (ps ++ piece.now ∷ [])) }
{
    if piece.is_empty() {
        words
    } else {
        with_word(words, piece)
    }
}

/// The words of a string, its quotes with it.
pub(crate) fn words_in(text: &[u8]) -> StringWords
    ensures { Tells result (words_of text.now) }
{
    let mut words = StringWords {
        said: NOTHING,
        unknown: false,
    };
    for piece in without_quotes(text).split(|c| is_separator(*c)) {
        words = with_piece(words, piece);
    }
    words
}
