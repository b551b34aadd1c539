//! The words of the language.

ghost use Rattle.std.specs.Prelude.{◌≡◌};
ghost use Rattle.std.specs.List.{list_any};
ghost use Rattle.std.specs.Str.{str_eq_ignore_ascii_case};
ghost use Rattle.abel_lexer.specs.Keywords as spec;
ghost use Rattle.abel_lexer.specs.Kinds.{directives, taken_specials, taken_extensions};
ghost use Rattle.abel_lexer.specs.Lengths.{word_kind};

use crate::token::TokenKind;

const USED: [&[u8]; 25] = [
    b"CASE",
    b"DECLARATIONS",
    b"DEVICE",
    b"ELSE",
    b"END",
    b"ENDCASE",
    b"ENDWITH",
    b"EQUATIONS",
    b"FLAG",
    b"GOTO",
    b"IF",
    b"ISTYPE",
    b"MACRO",
    b"MODULE",
    b"NODE",
    b"OPTIONS",
    b"PIN",
    b"STATE",
    b"STATE_DIAGRAM",
    b"TEST_VECTORS",
    b"THEN",
    b"TITLE",
    b"TRUTH_TABLE",
    b"WHEN",
    b"WITH",
];

const LEFT_OUT: [&[u8]; 12] = [
    b"ASYNC_RESET",
    b"EXTERNAL",
    b"FUNCTIONAL_BLOCK",
    b"FUSES",
    b"IN",
    b"INTERFACE",
    b"LIBRARY",
    b"PROPERTY",
    b"STATE_REGISTER",
    b"SYNC_RESET",
    b"TRACE",
    b"XOR_FACTORS",
];

const DIRECTIVES: [&[u8]; 2] = [b"@DCSET", b"@ONSET"];

const SPECIALS: [&[u8]; 3] = [b".X.", b".C.", b".Z."];

const EXTENSIONS: [&[u8]; 8] = [
    b".CLK", b".OE", b".AR", b".SP", b".D", b".Q", b".FB", b".PIN",
];

/// Whether a word is one of these, without regard to case.
fn is_listed(words: &[&[u8]], word: &[u8]) -> bool
    ensures { result ≡ list_any (λ k. str_eq_ignore_ascii_case k.now word.now) words.now }
{
    words.iter().any(|listed| listed.eq_ignore_ascii_case(word))
}

/// Whether a word is a keyword that the project leaves out.
#[tactic(auto, unfolding(crate::specs::Keywords::is_left_out))]
pub fn is_left_out(word: &[u8]) -> bool
    ensures { result ≡ spec.is_left_out word.now }
{
    is_listed(&LEFT_OUT, word)
}

/// Whether the bytes are a directive that is a token.
pub fn is_directive(word: &[u8]) -> bool
    ensures { result ≡ spec.is_listed directives word.now }
{
    is_listed(&DIRECTIVES, word)
}

/// Whether a special is one that the project takes.
pub fn is_taken_special(word: &[u8]) -> bool
    ensures { result ≡ spec.is_listed taken_specials word.now }
{
    is_listed(&SPECIALS, word)
}

/// Whether an extension is one that the project takes.
pub fn is_taken_extension(word: &[u8]) -> bool
    ensures { result ≡ spec.is_listed taken_extensions word.now }
{
    is_listed(&EXTENSIONS, word)
}

/// Whether a word is a keyword, used or left out.
#[tactic(auto, unfolding(crate::specs::Keywords::is_keyword))]
fn is_keyword(word: &[u8]) -> bool
    ensures { result ≡ spec.is_keyword word.now }
{
    is_listed(&USED, word) || is_listed(&LEFT_OUT, word)
}

/// The kind of a word: a keyword or an identifier.
pub fn word_kind(word: &[u8]) -> TokenKind
    ensures { result ≡ word_kind word.now }
{
    if is_keyword(word) {
        TokenKind::Keyword
    } else {
        TokenKind::Identifier
    }
}
