//! Names that have to find room in a drawing.

ghost use Rattle.std.specs.Prelude.{◌<◌, ◌↔◌, IsTrue, length};

use crate::page::{Page, Piece};
use pld_base::OutOfMemory;

/// How many bytes of a name a drawing shows.
const LABEL: u8 = 31;

/// How many bytes a drawing shows of a name. Takes no memory.
pub fn label_length(name: &[u8]) -> u8 {
    if is_long(name) {
        LABEL
    } else {
        name.len() as u8
    }
}

/// Whether a name has no room.
fn is_long(name: &[u8]) -> bool
    ensures { IsTrue result ↔ (31 < length name.now) }
{
    name.len() > usize::from(LABEL)
}

/// Writes a name, of a long one its front and three dots. The title of the element around it has the whole name.
pub fn put_label(page: &mut Page, name: &[u8]) -> Result<(), OutOfMemory> {
    if !is_long(name) {
        return page.put(&[Piece::Text(name)]);
    }
    let (front, _behind) = name.split_at(usize::from(LABEL) - 1);
    page.put(&[Piece::Text(front), Piece::Markup("…")])
}

/// Writes the title that an element with a long name has.
pub fn put_title_if_long(page: &mut Page, name: &[u8]) -> Result<(), OutOfMemory> {
    if !is_long(name) {
        return Ok(());
    }
    page.put(&[
        Piece::Markup("<title>"),
        Piece::Text(name),
        Piece::Markup("</title>"),
    ])
}

/// Writes a label after a blank, if there is one.
pub fn put_behind(page: &mut Page, label: &[u8]) -> Result<(), OutOfMemory> {
    if label.is_empty() {
        return Ok(());
    }
    page.put(&[Piece::Markup(" "), Piece::Text(label)])
}
