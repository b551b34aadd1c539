//! The terminals of the grammar, and tests of tokens by them.

ghost use Rattle.std.specs.Prelude.{◌≡◌, [], ◌∷◌, map, option_map};
ghost use Rattle.abel_grammar.specs.Prelude.{str_eq_ignore_ascii_case};
ghost use Rattle.abel_grammar.specs.Terminals.{number_of, look_up, keyword_of, sign_of, terminal_of, among};
ghost use Rattle.abel_grammar.specs.Reading.{starts, behind};

use abel_lexer::{Token, TokenKind};

/// What a token is to the grammar.
#[derive(Clone, Copy, PartialEq, Eq)]
pub enum Terminal {
    Identifier,
    Number,
    Special,
    Extension,
    Text,
    DontCare,
    Case,
    Declarations,
    Device,
    Else,
    End,
    Endcase,
    Endwith,
    Equations,
    Flag,
    Goto,
    If,
    Istype,
    Module,
    Node,
    Options,
    Pin,
    State,
    StateDiagram,
    TestVectors,
    Then,
    Title,
    TruthTable,
    When,
    With,
    Open,
    Close,
    Left,
    Right,
    BraceOpen,
    BraceClose,
    Comma,
    Semicolon,
    Colon,
    Equal,
    Clocked,
    Any,
    ClockedAny,
    Not,
    And,
    Or,
    Xor,
    Xnor,
    Plus,
    Minus,
    Times,
    Over,
    Rest,
    ShiftLeft,
    ShiftRight,
    IsEqual,
    Unequal,
    Less,
    LessEqual,
    Greater,
    GreaterEqual,
    Arrow,
    ClockedArrow,
    Range,
    Other,
}

impl Terminal {
    /// The number of a terminal.
    pub fn number(self) -> u8
        ensures { result ≡ number_of self }
    {
        self as u8
    }
}

/// The keywords, each with its terminal.
const KEYWORDS: [(&[u8], Terminal); 24] = [
    (b"case", Terminal::Case),
    (b"declarations", Terminal::Declarations),
    (b"device", Terminal::Device),
    (b"else", Terminal::Else),
    (b"end", Terminal::End),
    (b"endcase", Terminal::Endcase),
    (b"endwith", Terminal::Endwith),
    (b"equations", Terminal::Equations),
    (b"flag", Terminal::Flag),
    (b"goto", Terminal::Goto),
    (b"if", Terminal::If),
    (b"istype", Terminal::Istype),
    (b"module", Terminal::Module),
    (b"node", Terminal::Node),
    (b"options", Terminal::Options),
    (b"pin", Terminal::Pin),
    (b"state", Terminal::State),
    (b"state_diagram", Terminal::StateDiagram),
    (b"test_vectors", Terminal::TestVectors),
    (b"then", Terminal::Then),
    (b"title", Terminal::Title),
    (b"truth_table", Terminal::TruthTable),
    (b"when", Terminal::When),
    (b"with", Terminal::With),
];

/// Whether two words are the same without regard to case.
fn is_same(word: &[u8], other: &[u8]) -> bool
    ensures { result ≡ str_eq_ignore_ascii_case word.now other.now }
{
    word.eq_ignore_ascii_case(other)
}

/// The terminal of the first of these words that is this one without regard to case.
fn listed(entries: &[(&[u8], Terminal)], word: &[u8]) -> Terminal
    ensures { result ≡ look_up (str_eq_ignore_ascii_case word.now) (map (λ e. (e.0.now, e.1)) entries.now) }
{
    for (text, terminal) in entries {
        if is_same(word, text) {
            return *terminal;
        }
    }
    Terminal::Other
}

/// The keyword that a word is, without regard to case.
fn keyword(word: &[u8]) -> Terminal
    ensures { result ≡ keyword_of word.now }
{
    listed(&KEYWORDS, word)
}

/// The sign that one byte is.
fn short_sign(byte: u8) -> Terminal
    ensures { result ≡ sign_of (byte ∷ []) }
{
    match byte {
        b'(' => Terminal::Open,
        b')' => Terminal::Close,
        b'[' => Terminal::Left,
        b']' => Terminal::Right,
        b'{' => Terminal::BraceOpen,
        b'}' => Terminal::BraceClose,
        b',' => Terminal::Comma,
        b';' => Terminal::Semicolon,
        b':' => Terminal::Colon,
        b'=' => Terminal::Equal,
        b'!' => Terminal::Not,
        b'&' => Terminal::And,
        b'#' => Terminal::Or,
        b'$' => Terminal::Xor,
        b'+' => Terminal::Plus,
        b'-' => Terminal::Minus,
        b'*' => Terminal::Times,
        b'/' => Terminal::Over,
        b'%' => Terminal::Rest,
        b'<' => Terminal::Less,
        b'>' => Terminal::Greater,
        _ => Terminal::Other,
    }
}

/// The sign that two bytes are.
fn long_sign(first: u8, second: u8) -> Terminal
    ensures { result ≡ sign_of (first ∷ second ∷ []) }
{
    match (first, second) {
        (b':', b'=') => Terminal::Clocked,
        (b'?', b'=') => Terminal::Any,
        (b'!', b'$') => Terminal::Xnor,
        (b'<', b'<') => Terminal::ShiftLeft,
        (b'>', b'>') => Terminal::ShiftRight,
        (b'=', b'=') => Terminal::IsEqual,
        (b'!', b'=') => Terminal::Unequal,
        (b'<', b'=') => Terminal::LessEqual,
        (b'>', b'=') => Terminal::GreaterEqual,
        (b'-', b'>') => Terminal::Arrow,
        (b':', b'>') => Terminal::ClockedArrow,
        (b'.', b'.') => Terminal::Range,
        _ => Terminal::Other,
    }
}

/// The sign that a word is.
fn sign(word: &[u8]) -> Terminal
    ensures { result ≡ sign_of word.now }
{
    match word {
        [byte] => short_sign(*byte),
        [first, second] => long_sign(*first, *second),
        [b'?', b':', b'='] => Terminal::ClockedAny,
        _ => Terminal::Other,
    }
}

/// The terminal that a token is.
#[tactic(auto, unfolding(crate::specs::Terminals::terminal_of))]
pub fn terminal_of(token: &Token) -> Terminal
    ensures { result ≡ terminal_of token.now }
{
    match token.kind {
        TokenKind::Identifier => Terminal::Identifier,
        TokenKind::Number => Terminal::Number,
        TokenKind::Special => Terminal::Special,
        TokenKind::Extension => Terminal::Extension,
        TokenKind::Text => Terminal::Text,
        TokenKind::Directive => Terminal::DontCare,
        TokenKind::Keyword => keyword(token.text.bytes()),
        TokenKind::Sign => sign(token.text.bytes()),
    }
}

/// Whether a token is one of these terminals.
pub fn is_among(token: &Token, terminals: &[Terminal]) -> bool
    ensures { result ≡ among terminals.now token.now }
{
    let number = terminal_of(token).number();
    terminals.iter().any(|known| known.number() == number)
}

/// Whether the next token is one of these terminals.
pub fn starts(tokens: &[Token], terminals: &[Terminal]) -> bool
    ensures { result ≡ starts (among terminals.now) tokens.now }
{
    match tokens {
        [first, ..] => is_among(first, terminals),
        [] => false,
    }
}

/// The tokens after the next one, if that is one of these terminals.
pub fn behind<'a>(tokens: &'a [Token], terminals: &[Terminal]) -> Option<&'a [Token]>
    ensures { option_map (λ r. r.now) result ≡ behind (among terminals.now) tokens.now }
{
    match tokens {
        [] => None,
        [first, rest @ ..] => {
            if is_among(first, terminals) {
                Some(rest)
            } else {
                None
            }
        }
    }
}
