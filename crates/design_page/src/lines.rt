//! The lines of a text.

ghost use Rattle.std.specs.Prelude.{◌<◌, ◌≤◌, length};

/// The first line of a text, without what ends it, and what follows. Takes no memory.
pub fn first_line(text: &[u8]) -> (&[u8], &[u8])
    ensures { 0 < length text.now → length result.1.now < length text.now }
{
    match text.iter().position(|byte| *byte == b'\n') {
        Some(place) => {
            let (line, end) = text.split_at(place);
            (without_return(line), end.split_at(1).1)
        }
        None => (text, b""),
    }
}

/// A line without the carriage return that may end it.
fn without_return(line: &[u8]) -> &[u8] {
    match line {
        [front @ .., b'\r'] => front,
        _ => line,
    }
}

/// A line of a text by its number from 1; none past the last one. Takes no memory.
pub fn line_at(text: &[u8], number: u32) -> &[u8] {
    let mut rest = text;
    for _ in 1..number {
        rest = first_line(rest).1;
    }
    first_line(rest).0
}
