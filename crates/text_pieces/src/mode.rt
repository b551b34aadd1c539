//! The place of a byte: in the plain text, in a string or in a comment.

ghost use Rattle.std.specs.Prelude.{◌≡◌, ℕ, List};
ghost use Rattle.text_pieces.specs.Stacks.{ahead};
ghost use Rattle.text_pieces.specs.Modes as spec;

use crate::ahead::Ahead;

/// The place of a byte.
#[derive(Clone, Copy)]
pub enum Mode {
    /// In the plain text.
    Plain,
    /// In a string.
    Quoted,
    /// In a string, after a backslash.
    Escaped,
    /// In a comment that began with `"`.
    Note,
    /// In a comment that began with `//`.
    Line,
}

impl Mode {
    /// Whether a byte is in the plain text.
    pub fn is_plain(self) -> bool
        ensures { result ≡ spec.is_plain self }
    {
        match self {
            Mode::Plain => true,
            Mode::Quoted | Mode::Escaped | Mode::Note | Mode::Line => false,
        }
    }

    /// The place of the byte after this one, comments not counting in the plain text.
    pub fn quoting(self, byte: u8) -> Mode
        ensures { result ≡ spec.quoting self byte }
    {
        match self {
            Mode::Plain => {
                if byte == b'\'' {
                    Mode::Quoted
                } else {
                    Mode::Plain
                }
            }
            Mode::Quoted => {
                if byte == b'\\' {
                    Mode::Escaped
                } else if byte == b'\'' {
                    Mode::Plain
                } else {
                    Mode::Quoted
                }
            }
            Mode::Escaped => Mode::Quoted,
            Mode::Note => {
                if byte == b'"' || byte == b'\n' {
                    Mode::Plain
                } else {
                    Mode::Note
                }
            }
            Mode::Line => {
                if byte == b'\n' {
                    Mode::Plain
                } else {
                    Mode::Line
                }
            }
        }
    }

    /// The place of the byte after the passed one, comments counting too.
    pub fn passing(self, byte: u8, at: &Ahead) -> Mode
        ensures { result ≡ spec.passing self byte (ahead at.now) }
    {
        match at.peek() {
            Some(next) => self.behind(byte, next == b'/'),
            None => self.behind(byte, false),
        }
    }

    /// The same of a byte that precedes others.
    pub fn passing_in(self, byte: u8, others: &[u8]) -> Mode
        ensures { result ≡ spec.passing self byte others.now }
    {
        match others {
            [next, ..] => self.behind(byte, *next == b'/'),
            [] => self.behind(byte, false),
        }
    }

    /// The same, if it is known whether a slash follows the byte.
    fn behind(self, byte: u8, slash: bool) -> Mode
        ensures { (bs : List ℕ) → spec.starts_byte 47 bs ≡ slash → result ≡ spec.passing self byte bs }
    {
        if !self.is_plain() {
            self.quoting(byte)
        } else if byte == b'"' {
            Mode::Note
        } else if byte == b'/' && slash {
            Mode::Line
        } else {
            self.quoting(byte)
        }
    }
}
