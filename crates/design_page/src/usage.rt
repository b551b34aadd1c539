//! How much of a device a design uses, as bars.

use design_drawings::{Page, Piece};
use page_model::{PageModel, PinUse};
use pld_base::OutOfMemory;

/// How many of some things are used, of those that there are.
#[derive(Clone, Copy)]
struct Share {
    used: usize,
    all: usize,
}

/// A share with one thing more.
fn with_one(share: Share, is_used: bool) -> Share {
    Share {
        used: if is_used {
            share.used.saturating_add(1)
        } else {
            share.used
        },
        all: share.all.saturating_add(1),
    }
}

/// The pins for signals without a cell, and those that the device reads.
fn inputs_of(model: &PageModel) -> Share {
    let mut share = Share { used: 0, all: 0 };
    for facts in model.pins.as_slice() {
        if facts.cell.is_none() && !matches!(facts.used_as, PinUse::Ground | PinUse::Supply) {
            share = with_one(share, facts.used_as == PinUse::Input);
        }
    }
    share
}

/// The cells, and those that are assigned.
fn cells_of(model: &PageModel) -> Share {
    let mut share = Share { used: 0, all: 0 };
    for cell in model.cells.as_slice() {
        share = with_one(share, cell.is_assigned);
    }
    share
}

/// The data rows of all cells, and those in use.
fn products_of(model: &PageModel) -> Share {
    let mut share = Share { used: 0, all: 0 };
    for cell in model.cells.as_slice() {
        share = Share {
            used: share.used.saturating_add(cell.used),
            all: share.all.saturating_add(usize::from(cell.room)),
        };
    }
    share
}

/// Writes a line of the table.
fn put_share(page: &mut Page, word: &'static str, share: Share) -> Result<(), OutOfMemory> {
    page.put(&[
        Piece::Markup("<tr><th scope=\"row\">"),
        Piece::Markup(word),
        Piece::Markup("</th><td>"),
        Piece::Number(share.used),
        Piece::Markup(" of "),
        Piece::Number(share.all),
        Piece::Markup(
            "</td><td><svg class=\"bar\" role=\"img\" width=\"160\" height=\"10\" preserveAspectRatio=\"none\" viewBox=\"0 0 ",
        ),
        Piece::Number(share.all),
        Piece::Markup(" 1\"><title>"),
        Piece::Number(share.used),
        Piece::Markup(" of "),
        Piece::Number(share.all),
        Piece::Markup(
            "</title><rect width=\"100%\" height=\"1\"/><rect class=\"full\" height=\"1\" width=\"",
        ),
        Piece::Number(share.used),
        Piece::Markup("\"/></svg></td></tr>\n"),
    ])
}

/// Writes how many inputs, cells, products and rows are used, of a device with so many rows.
pub fn put_usage(page: &mut Page, model: &PageModel, rows: u16) -> Result<(), OutOfMemory> {
    page.put(&[Piece::Markup("<table class=\"used\">\n")])?;
    put_share(page, "Inputs", inputs_of(model))?;
    put_share(page, "Output cells", cells_of(model))?;
    put_share(page, "Product terms", products_of(model))?;
    let all = usize::from(rows);
    let used = model.rows_in_use;
    put_share(page, "Array rows", Share { used, all })?;
    page.put(&[Piece::Markup("</table>\n")])
}
