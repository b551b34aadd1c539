//! Rows of the array with the levels of their literals.

ghost use Rattle.std.specs.Prelude.{◌<◌, length};

use crate::array_heads::literal;
use crate::page::{Page, Piece};
use crate::seen::Seen;
use fuse_listing::{cell_of, is_in_use, is_opened};
use pld_base::OutOfMemory;
use pld_device::{Device, Loaded};

/// A level in a character.
pub fn level_char(level: Option<bool>) -> &'static str {
    match level {
        Some(true) => "1",
        Some(false) => "0",
        None => "?",
    }
}

/// Writes a literal of a row, after others or not, with its level.
fn put_literal<D: Device>(
    device: &Loaded<D>,
    page: &mut Page,
    seen: Seen,
    column: u16,
    is_first: bool,
) -> Result<(), OutOfMemory>
    requires { column < D.table.columns }
{
    let text = literal::<D>(device, seen.run.design, column)?;
    page.put(&[
        Piece::Markup(if is_first { "" } else { " &amp; " }),
        Piece::Text(&text),
        Piece::Markup("<i>"),
        Piece::Markup(level_char(seen.column::<D>(device, column))),
        Piece::Markup("</i>"),
    ])
}

/// Writes the literals of a row with their levels.
fn put_literals<D: Device>(
    device: &Loaded<D>,
    page: &mut Page,
    seen: Seen,
    row: u16,
) -> Result<(), OutOfMemory> {
    let design = seen.run.design;
    let mut is_first = true;
    for column in 0..device.columns() {
        if !is_opened::<D>(device, design.levels(), row, column) {
            put_literal::<D>(device, page, seen, column, is_first)?;
            is_first = false;
        }
    }
    if is_first {
        page.put(&[Piece::Markup("1")])?;
    }
    Ok(())
}

/// Writes a row: a word for it, its literals with their levels, its value, and its first fuse.
pub fn put_row<D: Device>(
    device: &Loaded<D>,
    page: &mut Page,
    seen: Seen,
    word: &'static str,
    row: u16,
) -> Result<(), OutOfMemory> {
    let value = seen.row::<D>(device, row);
    page.put(&[
        Piece::Markup(if value == Some(true) {
            "<tr class=\"on\"><td>"
        } else {
            "<tr><td>"
        }),
        Piece::Markup(word),
        Piece::Markup("</td><td><code>"),
    ])?;
    put_literals::<D>(device, page, seen, row)?;
    page.put(&[
        Piece::Markup("</code></td><td>"),
        Piece::Markup(level_char(value)),
        Piece::Markup("</td><td class=\"hint\">from fuse "),
        Piece::Number(usize::from(device.columns()) * usize::from(row)),
        Piece::Markup("</td></tr>\n"),
    ])
}

/// Writes the row that there may be, if it is in use.
pub fn put_if_used<D: Device>(
    device: &Loaded<D>,
    page: &mut Page,
    seen: Seen,
    word: &'static str,
    row: Option<u16>,
) -> Result<(), OutOfMemory> {
    match row {
        Some(row) if is_in_use::<D>(device, seen.run.design.levels(), row) => {
            put_row::<D>(device, page, seen, word, row)
        }
        _ => Ok(()),
    }
}

/// Writes the data rows of a cell that are in use.
pub fn put_sum<D: Device>(
    device: &Loaded<D>,
    page: &mut Page,
    seen: Seen,
    cell: u8,
) -> Result<(), OutOfMemory>
    requires { cell < length D.table.cells }
{
    let design = seen.run.design;
    let found = cell_of::<D>(device, cell);
    let mut is_first = true;
    for row in found.first..found.first + u16::from(found.room) {
        if is_in_use::<D>(device, design.levels(), row) {
            put_row::<D>(device, page, seen, if is_first { "" } else { "#" }, row)?;
            is_first = false;
        }
    }
    Ok(())
}
