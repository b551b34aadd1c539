//! The table of the cells.

ghost use Rattle.std.specs.Prelude.{◌≡◌, ◌++◌, IfOk, OnOk};
ghost use Rattle.abel_tree.specs.Entries.{entries_of};
ghost use Rattle.fuse_listing.specs.Listing.{row_text};
ghost use Rattle.design_drawings.specs.Escaped.{escaped};

use crate::drawn_design::Design;
use crate::labels::put_behind;
use crate::page::{Page, Piece};
use crate::pin_words::put_levels;
use fuse_listing::{Burned, put_row};
use page_model::{CellFacts, Drives};
use pld_base::OutOfMemory;
use pld_device::{Device, Loaded};

/// A row of the array as a product, or 0.
fn product_of<'a, D: Device>(
    device: &'a Loaded<D>,
    design: Design<'a>,
    row: u16,
) -> Result<Vec<u8>, OutOfMemory>
    ensures { IfOk result (λ product. product.items
        ≡ row_text D.table design.entry.file.now.fuses (entries_of design.entry.names.now) row) }
{
    let burned = Burned {
        device,
        fuses: design.levels(),
        names: design.names,
    };
    let mut product = Vec::new(design.alloc);
    put_row::<D>(design.alloc, &mut product, &burned, row)?;
    Ok(product)
}

/// Writes a row of the array as a product, or 0.
pub fn put_product<D: Device>(
    device: &Loaded<D>,
    page: &mut Page,
    design: Design,
    row: u16,
) -> Result<(), OutOfMemory>
    ensures { OnOk result (page.new ≡ page.old
        ++ escaped (row_text D.table design.entry.file.now.fuses (entries_of design.entry.names.now) row)) }
{
    let product = product_of::<D>(device, design, row)?;
    page.put(&[Piece::Text(&product)])
}

/// Writes a row as a condition: a product, or in a word that it is always or never so.
fn put_condition<D: Device>(
    device: &Loaded<D>,
    page: &mut Page,
    design: Design,
    row: u16,
) -> Result<(), OutOfMemory> {
    let product = product_of::<D>(device, design, row)?;
    match product.as_slice() {
        [b'0'] => page.put(&[Piece::Markup("never")]),
        [b'1'] => page.put(&[Piece::Markup("always")]),
        literals => page.put(&[
            Piece::Markup("<code>"),
            Piece::Text(literals),
            Piece::Markup("</code>"),
        ]),
    }
}

/// Writes how much of a cell's room is used, as a bar and in numbers.
fn put_room(page: &mut Page, used: usize, room: u8) -> Result<(), OutOfMemory> {
    let room = usize::from(room);
    page.put(&[
        Piece::Markup(
            "<td class=\"use\"><svg class=\"bar\" role=\"img\" width=\"80\" height=\"10\" preserveAspectRatio=\"none\" viewBox=\"0 0 ",
        ),
        Piece::Number(room),
        Piece::Markup(" 1\"><title>"),
        Piece::Number(used),
        Piece::Markup(" of "),
        Piece::Number(room),
        Piece::Markup(
            " products</title><desc>A bar that is as full as the cell.</desc><rect width=\"100%\" height=\"1\"/><rect class=\"full\" height=\"1\" width=\"",
        ),
        Piece::Number(used),
        Piece::Markup("\"/></svg> "),
        Piece::Number(used),
        Piece::Markup(" of "),
        Piece::Number(room),
        Piece::Markup("</td>"),
    ])
}

/// Writes when a cell drives its pin.
fn put_enable<D: Device>(
    device: &Loaded<D>,
    page: &mut Page,
    design: Design,
    drives: Drives,
) -> Result<(), OutOfMemory> {
    page.put(&[Piece::Markup("<td>")])?;
    match drives {
        Drives::Never => page.put(&[Piece::Markup("never")])?,
        Drives::Always => page.put(&[Piece::Markup("always")])?,
        Drives::ByRow(row) => put_condition::<D>(device, page, design, row)?,
        Drives::WhileLow(pin) => {
            page.put(&[Piece::Markup("while pin "), Piece::Number(usize::from(pin))])?;
            put_behind(page, design.model.label(pin))?;
            page.put(&[Piece::Markup(" is low")])?;
        }
    }
    page.put(&[Piece::Markup("</td>")])
}

/// Writes the row that all registers share, for a cell that may be one.
fn put_shared<D: Device>(
    device: &Loaded<D>,
    page: &mut Page,
    design: Design,
    is_register: bool,
    row: Option<u16>,
) -> Result<(), OutOfMemory> {
    page.put(&[Piece::Markup("<td>")])?;
    match row {
        Some(row) => put_condition::<D>(device, page, design, row)?,
        None if is_register => page.put(&[Piece::Markup("has none")])?,
        None => page.put(&[Piece::Markup("–")])?,
    }
    page.put(&[Piece::Markup("</td>")])
}

/// Writes the label of a pin, if it has one.
fn put_name(page: &mut Page, name: &[u8]) -> Result<(), OutOfMemory> {
    if name.is_empty() {
        return page.put(&[Piece::Markup("<td></td>")]);
    }
    page.put(&[
        Piece::Markup("<td class=\"name\"><code>"),
        Piece::Text(name),
        Piece::Markup("</code></td>"),
    ])
}

/// Writes the line of a cell that is assigned.
fn put_used<D: Device>(
    device: &Loaded<D>,
    page: &mut Page,
    design: Design,
    cell: CellFacts,
) -> Result<(), OutOfMemory> {
    page.put(&[
        Piece::Markup("<tr id=\"p"),
        Piece::Number(usize::from(cell.pin)),
        Piece::Markup("\"><th scope=\"row\">"),
        Piece::Number(usize::from(cell.pin)),
        Piece::Markup("</th>"),
    ])?;
    put_name(page, design.model.label(cell.pin))?;
    page.put(&[
        Piece::Markup(if cell.is_register {
            "<td>registered</td>"
        } else {
            "<td>combinational</td>"
        }),
        Piece::Markup(if cell.is_inverted {
            "<td>inverted</td>"
        } else {
            "<td>direct</td>"
        }),
    ])?;
    put_room(page, cell.used, cell.room)?;
    put_enable::<D>(device, page, design, cell.drives)?;
    put_shared::<D>(device, page, design, cell.is_register, cell.reset)?;
    put_shared::<D>(device, page, design, cell.is_register, cell.preset)?;
    page.put(&[Piece::Markup("</tr>\n")])
}

/// Writes the line of a cell that nothing assigns.
fn put_spare(page: &mut Page, design: Design, cell: CellFacts) -> Result<(), OutOfMemory> {
    page.put(&[
        Piece::Markup("<tr class=\"dim\"><th scope=\"row\">"),
        Piece::Number(usize::from(cell.pin)),
        Piece::Markup("</th>"),
    ])?;
    put_name(page, design.model.label(cell.pin))?;
    page.put(&[
        Piece::Markup("<td colspan=\"6\">not used, room for "),
        Piece::Number(usize::from(cell.room)),
    ])?;
    if cell.drives != Drives::Never {
        page.put(&[Piece::Markup("; drives its pin")])?;
        put_levels(page, design.model, cell)?;
    }
    page.put(&[Piece::Markup("</td></tr>\n")])
}

/// Writes the table of the cells.
pub fn put_cells<D: Device>(
    device: &Loaded<D>,
    page: &mut Page,
    design: Design,
) -> Result<(), OutOfMemory> {
    page.put(&[Piece::Markup(
        "<div class=\"wide\" tabindex=\"0\"><table><caption>The cells, and how full they are. Inverted: the pin has the complement of the cell's output.</caption><thead><tr><th scope=\"col\">Pin</th><th scope=\"col\">Name</th><th scope=\"col\">Kind</th><th scope=\"col\">Polarity</th><th scope=\"col\">Products</th><th scope=\"col\">Enable</th><th scope=\"col\">Reset</th><th scope=\"col\">Preset</th></tr></thead><tbody>\n",
    )])?;
    for cell in design.model.cells.as_slice() {
        if cell.is_assigned {
            put_used::<D>(device, page, design, *cell)?;
        } else {
            put_spare(page, design, *cell)?;
        }
    }
    page.put(&[Piece::Markup("</tbody></table></div>\n")])
}
