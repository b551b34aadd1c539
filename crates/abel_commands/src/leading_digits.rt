//! Decimal digits.

ghost use Rattle.std.specs.Prelude.{◌≡◌, ◌≤◌, length, take};
ghost use Rattle.abel_commands.specs.Prelude.{is_ascii_digit, prefix_len};

/// How many digits a text begins with.
fn digits_len(text: &[u8]) -> usize
    ensures digits { result ≡ prefix_len is_ascii_digit text.now }
    ensures within { result ≤ length text.now }
{
    text.iter().take_while(|byte| byte.is_ascii_digit()).count()
}

/// The digits that a text begins with. Takes no memory.
pub fn first_digits(text: &[u8]) -> &[u8]
    ensures { result.now ≡ take (prefix_len is_ascii_digit text.now) text.now }
{
    text.split_at(digits_len(text)).0
}
