//! The bytes that sources are made of.

ghost use Rattle.std.specs.Prelude.{◌≡◌};
ghost use Rattle.abel_lexer.specs.Bytes as spec;

/// Whether a byte is a blank: tab, line feed, form feed, carriage return, byte 26 or space.
pub fn is_blank(byte: u8) -> bool
    ensures { result ≡ spec.is_blank byte }
{
    matches!(byte, b'\t' | b'\n' | 12 | b'\r' | 26 | b' ')
}

/// Whether a byte may begin a name.
pub fn is_name_first(byte: u8) -> bool
    ensures { result ≡ spec.is_name_first byte }
{
    byte.is_ascii_alphabetic() || byte == b'_' || byte == b'~'
}

/// Whether a byte may follow in a name.
pub fn is_name_later(byte: u8) -> bool
    ensures { result ≡ spec.is_name_later byte }
{
    is_name_first(byte) || byte.is_ascii_digit()
}

/// Whether a byte names a radix after `^`: b, o, d or h, in either case.
pub fn is_radix_letter(byte: u8) -> bool
    ensures { result ≡ spec.is_radix_letter byte }
{
    matches!(byte.to_ascii_lowercase(), b'b' | b'o' | b'd' | b'h')
}
