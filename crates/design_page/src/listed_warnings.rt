//! The warnings on a source, as a list of the page.

use crate::lines::first_line;
use crate::told_places::number_at;
use design_drawings::{Page, Piece};
use pld_base::OutOfMemory;

/// What a warning begins with, after its place.
const WORD: &[u8] = b": warning: ";

/// What follows the word of a warning in its line.
fn words_of(line: &[u8]) -> &[u8] {
    let mut rest = line;
    'bytes: while !rest.is_empty() {
        if let Some(words) = rest.strip_prefix(WORD) {
            return words;
        }
        rest = rest.split_at(1).1;
    }
    line
}

/// Writes a warning, whose line begins with the name of the file: with a link to its line, if it has one.
fn put_item(page: &mut Page, name: &[u8], line: &[u8]) -> Result<(), OutOfMemory> {
    let (_, place) = line.split_at(name.len().min(line.len()));
    let number = match place {
        [b':', rest @ ..] => number_at(rest).0,
        _ => 0,
    };
    page.put(&[Piece::Markup("<li>")])?;
    if number != 0 {
        page.put(&[
            Piece::Markup("<a href=\"#L"),
            Piece::Number(number as usize),
            Piece::Markup("\">line "),
            Piece::Number(number as usize),
            Piece::Markup("</a>: "),
        ])?;
    }
    page.put(&[Piece::Text(words_of(line)), Piece::Markup("</li>\n")])
}

/// Writes the warnings, whose lines begin with the name of the file.
pub fn put_warning_list(page: &mut Page, name: &[u8], lines: &[u8]) -> Result<(), OutOfMemory> {
    if lines.is_empty() {
        return Ok(());
    }
    page.put(&[Piece::Markup("<ul class=\"warnings\">\n")])?;
    let mut rest = lines;
    'lines: while !rest.is_empty() {
        let (line, behind) = first_line(rest);
        put_item(page, name, line)?;
        rest = behind;
    }
    page.put(&[Piece::Markup("</ul>\n")])
}
