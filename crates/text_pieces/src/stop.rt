//! The bytes that a look stops at.

ghost use Rattle.std.specs.Prelude.{◌≡◌};
ghost use Rattle.text_pieces.specs.Stops.{is_stop};

/// The bytes that are looked for in a text.
#[derive(Clone, Copy)]
pub enum Stop {
    /// Question marks.
    Question,
    /// What may end an argument, or nest something in it: quotes, parentheses, commas and brackets.
    Argument,
}

impl Stop {
    /// Whether a byte is one of them.
    pub fn is_at(self, byte: u8) -> bool
        ensures { result ≡ is_stop self byte }
    {
        match self {
            Stop::Question => byte == b'?',
            Stop::Argument => {
                byte == b'\''
                    || byte == b'('
                    || byte == b')'
                    || byte == b','
                    || byte == b'['
                    || byte == b']'
            }
        }
    }
}
