//! The frame of a page.

use crate::style::STYLE;
use design_drawings::{Page, Piece};
use pld_base::OutOfMemory;

/// What each page begins with.
pub const FRONT: &str =
    "<!DOCTYPE html>\n<html lang=\"en\">\n<head>\n<meta charset=\"utf-8\">\n<meta name=\"viewport\" content=\"width=device-width, initial-scale=1\">\n<title>";

/// The program, as a page names it.
const PROGRAM: &str = "abel-page 0.1.0";

/// Writes all up to the page's first heading, which is its name.
pub fn put_front(page: &mut Page, name: &[u8]) -> Result<(), OutOfMemory> {
    page.put(&[
        Piece::Markup(FRONT),
        Piece::Text(name),
        Piece::Markup("</title>\n<style>"),
        Piece::Markup(STYLE),
        Piece::Markup("</style>\n</head>\n<body>\n<main>\n<h1>"),
        Piece::Text(name),
        Piece::Markup("</h1>\n"),
    ])
}

/// Writes the heading of a part, which links lead to by its word.
pub fn put_heading(
    page: &mut Page,
    word: &'static str,
    heading: &'static str,
) -> Result<(), OutOfMemory> {
    page.put(&[
        Piece::Markup("<h2 id=\""),
        Piece::Markup(word),
        Piece::Markup("\">"),
        Piece::Markup(heading),
        Piece::Markup("</h2>\n"),
    ])
}

/// Writes the end of the page.
pub fn put_end(page: &mut Page) -> Result<(), OutOfMemory> {
    page.put(&[
        Piece::Markup("</main>\n<footer>"),
        Piece::Markup(PROGRAM),
        Piece::Markup("</footer>\n</body>\n</html>\n"),
    ])
}
