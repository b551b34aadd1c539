//! A text with line numbers, and a place in it.

ghost use Rattle.std.specs.Prelude.{◌≤◌, length};

use crate::lines::first_line;
use design_drawings::{Page, Piece};
use pld_base::{OutOfMemory, Place};
use shown_text::printable;
use std::alloc::Global;

/// How many bytes the first character of a text takes by its first byte, as far as they are there.
fn first_char(text: &[u8]) -> usize
    ensures { result ≤ length text.now }
{
    let size = match text.first() {
        Some(0xC0..=0xDF) => 2,
        Some(0xE0..=0xEF) => 3,
        Some(0xF0..=0xFF) => 4,
        _ => 1,
    };
    text.len().min(size)
}

/// Writes a line of this number, which links lead to.
fn put_plain(page: &mut Page, alloc: Global, line: &[u8], number: u32) -> Result<(), OutOfMemory> {
    let shown = printable(alloc, line)?;
    page.put(&[
        Piece::Markup("<span id=\"L"),
        Piece::Number(number as usize),
        Piece::Markup("\">"),
        Piece::Text(shown.as_bytes()),
        Piece::Markup("\n</span>"),
    ])
}

/// Writes a line with the character at a column marked.
fn put_marked(
    page: &mut Page,
    alloc: Global,
    line: &[u8],
    column: usize,
) -> Result<(), OutOfMemory> {
    let (front, rest) = line.split_at(column.saturating_sub(1).min(line.len()));
    let (here, behind) = rest.split_at(first_char(rest));
    let front = printable(alloc, front)?;
    let marked = printable(alloc, if here.is_empty() { b" " } else { here })?;
    let behind = printable(alloc, behind)?;
    page.put(&[
        Piece::Markup("<span class=\"at\">"),
        Piece::Text(front.as_bytes()),
        Piece::Markup("<mark>"),
        Piece::Text(marked.as_bytes()),
        Piece::Markup("</mark>"),
        Piece::Text(behind.as_bytes()),
        Piece::Markup("\n</span>"),
    ])
}

/// Writes a text line by line, with a place in it marked if there is one.
pub fn put_text(
    page: &mut Page,
    alloc: Global,
    text: &[u8],
    place: Option<Place>,
) -> Result<(), OutOfMemory> {
    page.put(&[Piece::Markup("<pre class=\"source\" tabindex=\"0\">")])?;
    let mut rest = text;
    let mut number = 0u32;
    'lines: while !rest.is_empty() {
        let (line, behind) = first_line(rest);
        number = number.saturating_add(1);
        match place {
            Some(place) if place.line == number => {
                put_marked(page, alloc, line, place.column as usize)?
            }
            _ => put_plain(page, alloc, line, number)?,
        }
        rest = behind;
    }
    page.put(&[Piece::Markup("</pre>\n")])
}
