//! Decimal digits.

ghost use Rattle.std.specs.Prelude.{◌≡◌};
ghost use Rattle.abel_commands.specs.Prelude.{is_ascii_digit, list_all};
ghost use Rattle.abel_commands.specs.Words.{are_few_digits};

/// Whether each byte is a digit.
fn are_digits(text: &[u8]) -> bool
    ensures { result ≡ list_all is_ascii_digit text.now }
{
    text.iter().all(|byte| byte.is_ascii_digit())
}

/// Whether a text is at most five digits, or nothing. Takes no memory.
pub fn are_few_digits(text: &[u8]) -> bool
    ensures { result ≡ are_few_digits text.now }
{
    text.len() < 6 && are_digits(text)
}
