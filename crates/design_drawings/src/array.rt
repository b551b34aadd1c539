//! The array of the fuses, as a plot.

ghost use Rattle.std.specs.Prelude.{◌≡◌, ◌+◌, ◌*◌};

use crate::array_heads::{levels_height, put_levels, put_pins, put_stripes};
use crate::array_rows::put_array_row;
use crate::control_fuses::put_control_fuses;
use crate::drawn_design::Design;
use crate::page::{Page, Piece};
use crate::rows::cell_of_row;
use fuse_listing::cell_of;
use pld_base::OutOfMemory;
use pld_device::{Device, Loaded};
use std::mem;

/// From one column to the next.
pub const STEP: usize = 9;

/// From one line to the next.
pub const LINE: u32 = 11;

/// How high the pins above the columns are.
const PINS: usize = 12;

/// The beginning of the columns.
pub const LEFT: usize = 44;

/// The room for the products after the columns.
pub const BEHIND: usize = 352;

/// The middle of a column. Takes no memory.
pub fn column_at(column: u16) -> usize
    ensures { result ≡ 48 + 9 * column }
{
    LEFT + usize::from(column) * STEP + STEP / 2
}

/// Whether a row begins the rows of another cell than the row before it.
fn is_group_begun<D: Device>(device: &Loaded<D>, row: u16) -> bool {
    row == 0 || cell_of_row::<D>(device, row) != cell_of_row::<D>(device, row - 1)
}

/// Writes the line above the rows of a cell, or above a row that all registers share.
fn put_group<D: Device>(
    device: &Loaded<D>,
    page: &mut Page,
    design: Design,
    row: u16,
    down: u32,
) -> Result<(), OutOfMemory> {
    page.put(&[
        Piece::Markup("<text class=\"g\" x=\""),
        Piece::Number(LEFT),
        Piece::Markup("\" y=\""),
        Piece::Number(down as usize),
        Piece::Markup("\">"),
    ])?;
    match cell_of_row::<D>(device, row) {
        Some(cell) => {
            let pin = cell_of::<D>(device, cell).pin;
            page.put(&[
                Piece::Markup("pin "),
                Piece::Number(usize::from(pin)),
                Piece::Markup(" "),
                Piece::Text(design.model.label(pin)),
            ])?;
            put_control_fuses::<D>(device, page, design, cell)?;
        }
        None => page.put(&[Piece::Markup(if device.reset() == Some(row) {
            "reset of all registers"
        } else {
            "preset of all registers"
        })])?,
    }
    page.put(&[Piece::Markup("</text>\n")])
}

/// Writes the opening of a drawing of this height.
fn put_drawing<D: Device>(
    device: &Loaded<D>,
    page: &mut Page,
    height: usize,
) -> Result<(), OutOfMemory> {
    let width = LEFT + usize::from(device.columns()) * STEP + BEHIND;
    page.put(&[
        Piece::Markup("<svg class=\"array\" role=\"img\" width=\""),
        Piece::Number(width),
        Piece::Markup("\" height=\""),
        Piece::Number(height),
        Piece::Markup("\" viewBox=\"0 0 "),
        Piece::Number(width),
        Piece::Markup(" "),
        Piece::Number(height),
        Piece::Markup("\">"),
    ])
}

/// Writes the drawing of a group of rows, which end so far down.
fn put_group_drawing<D: Device>(
    device: &Loaded<D>,
    page: &mut Page,
    rows: Page,
    row: u16,
    down: u32,
) -> Result<(), OutOfMemory> {
    put_drawing::<D>(device, page, down as usize + LINE as usize)?;
    page.put(&[
        Piece::Markup("<title>Rows up to "),
        Piece::Number(usize::from(row)),
        Piece::Markup(
            "</title><desc>The rows of a cell or of a common control, each with its dots and, where it is in use, its product.</desc>",
        ),
    ])?;
    put_stripes::<D>(device, page, down as usize + LINE as usize)?;
    page.append(rows)?;
    page.put(&[Piece::Markup("</svg>\n")])
}

/// Writes the rows, those of a cell in a drawing of their own, so that none is cut at the end of a sheet.
fn put_rows<D: Device>(
    device: &Loaded<D>,
    page: &mut Page,
    design: Design,
) -> Result<(), OutOfMemory> {
    let mut rows = Page::new(design.alloc);
    let mut last = 0u16;
    let mut down = 0u32;
    for row in 0..device.rows() {
        if is_group_begun::<D>(device, row) {
            let above = mem::replace(&mut rows, Page::new(design.alloc));
            if row != 0 {
                put_group_drawing::<D>(device, page, above, last, down)?;
            }
            down = LINE;
            put_group::<D>(device, &mut rows, design, row, down)?;
        }
        let room = put_array_row::<D>(device, &mut rows, design, row, down)?;
        down = down.saturating_add(room);
        last = row;
    }
    put_group_drawing::<D>(device, page, rows, last, down)
}

/// Writes the pins above the columns. They alone are repeated on each sheet: browsers misplace turned text in what they repeat.
fn put_pin_drawing<D: Device>(device: &Loaded<D>, page: &mut Page) -> Result<(), OutOfMemory> {
    put_drawing::<D>(device, page, PINS)?;
    page.put(&[Piece::Markup(
        "<title>The pins</title><desc>Above each pair of columns the number of its pin.</desc>",
    )])?;
    put_stripes::<D>(device, page, PINS)?;
    put_pins::<D>(device, page)?;
    page.put(&[Piece::Markup("</svg>")])
}

/// Writes the levels that the columns carry.
fn put_level_drawing<D: Device>(
    device: &Loaded<D>,
    page: &mut Page,
    design: Design,
) -> Result<(), OutOfMemory> {
    let height = levels_height::<D>(device, design)?;
    put_drawing::<D>(device, page, height + 4)?;
    page.put(&[Piece::Markup(
        "<title>The levels</title><desc>Above each column the level that it carries.</desc>",
    )])?;
    put_stripes::<D>(device, page, height + 4)?;
    put_levels::<D>(device, page, design, height)?;
    page.put(&[Piece::Markup("</svg>\n")])
}

/// Writes the plot of the array: a line a row with its first fuse and, if the row is in use, its product.
pub fn put_array<D: Device>(
    device: &Loaded<D>,
    page: &mut Page,
    design: Design,
) -> Result<(), OutOfMemory> {
    page.put(&[Piece::Markup(
        "<div class=\"wide\" tabindex=\"0\"><div class=\"plot\"><div class=\"heads\">",
    )])?;
    put_pin_drawing::<D>(device, page)?;
    page.put(&[Piece::Markup("</div>\n<div class=\"rows\">")])?;
    put_level_drawing::<D>(device, page, design)?;
    put_rows::<D>(device, page, design)?;
    page.put(&[Piece::Markup("</div></div></div>\n")])
}
