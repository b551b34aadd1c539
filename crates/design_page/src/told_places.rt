//! The place that a line of the report shows.

ghost use Rattle.std.specs.Prelude.{◌≤◌, length};

use pld_base::Place;

/// The number that a text begins with, and what follows. Takes no memory.
pub fn number_at(text: &[u8]) -> (u32, &[u8]) {
    let mut number = 0u32;
    let mut rest = text;
    'digits: while let [digit @ b'0'..=b'9', behind @ ..] = rest {
        number = number
            .wrapping_mul(10)
            .wrapping_add(u32::from(*digit - b'0'));
        rest = behind;
    }
    (number, rest)
}

/// The place that a text begins with, as a line and a column with a byte between them.
fn place_at(text: &[u8]) -> Place {
    let (line, behind) = number_at(text);
    let (column, _rest) = match behind {
        [_, column @ ..] => number_at(column),
        [] => (1, behind),
    };
    Place { line, column }
}

/// The place that a line of the report shows, after its first ` at `. Takes no memory.
pub fn told_place(line: &[u8]) -> Option<Place> {
    let mut rest = line;
    'bytes: while let [_, behind @ ..] = rest {
        if let [b' ', b'a', b't', b' ', place @ ..] = rest {
            return Some(place_at(place));
        }
        rest = behind;
    }
    None
}
