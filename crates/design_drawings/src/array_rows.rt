//! A row of the plot.

ghost use Rattle.std.specs.Prelude.{◌<◌, ◌≤◌, length};

use crate::array::{LEFT, LINE, STEP, column_at};
use crate::drawn_design::Design;
use crate::page::{Page, Piece};
use crate::rows::{is_enable, is_whole};
use fuse_listing::{Burned, is_in_use, is_opened, put_row};
use pld_base::OutOfMemory;
use pld_device::{Device, Loaded};

/// How many bytes of a product are on a line.
const WIDTH: usize = 60;

/// Writes the number of a row's first fuse.
fn put_number<D: Device>(
    device: &Loaded<D>,
    page: &mut Page,
    row: u16,
    down: u32,
) -> Result<(), OutOfMemory> {
    page.put(&[
        Piece::Markup("<text class=\"e\" x=\""),
        Piece::Number(LEFT - 6),
        Piece::Markup("\" y=\""),
        Piece::Number(down as usize + 3),
        Piece::Markup("\">"),
        Piece::Number(usize::from(device.columns()) * usize::from(row)),
        Piece::Markup("</text>"),
    ])
}

/// Writes a dot for each connection that is.
fn put_dots<D: Device>(
    device: &Loaded<D>,
    page: &mut Page,
    design: Design,
    row: u16,
    down: u32,
) -> Result<(), OutOfMemory> {
    page.put(&[Piece::Markup("<path class=\"dot\" d=\"M0 0")])?;
    for column in 0..device.columns() {
        if !is_opened::<D>(device, design.levels(), row, column) {
            page.put(&[
                Piece::Markup("M"),
                Piece::Number(column_at(column)),
                Piece::Markup(" "),
                Piece::Number(down as usize),
                Piece::Markup("h0"),
            ])?;
        }
    }
    page.put(&[Piece::Markup("\"/>")])
}

/// Writes the one line that represents the dots of a row whose connections all are.
fn put_whole<D: Device>(device: &Loaded<D>, page: &mut Page, down: u32) -> Result<(), OutOfMemory> {
    page.put(&[
        Piece::Markup("<path class=\"whole\" d=\"M"),
        Piece::Number(LEFT),
        Piece::Markup(" "),
        Piece::Number(down as usize),
        Piece::Markup("h"),
        Piece::Number(usize::from(device.columns()) * STEP),
        Piece::Markup("\"/>"),
    ])
}

/// The front of a product that has room on a line: it ends after a literal, if one ends in time.
fn front_length(product: &[u8]) -> usize
    requires { 0 < length product.now }
    ensures some { 0 < result }
    ensures within { result ≤ length product.now }
{
    if product.len() <= WIDTH {
        return product.len();
    }
    let mut end = 0usize;
    for (place, byte) in product.iter().enumerate() {
        if place < WIDTH && *byte == b' ' {
            end = place + 1;
        }
    }
    if end == 0 { WIDTH } else { end }
}

/// Writes the lines of a product, and answers how many there are.
fn put_lines(page: &mut Page, product: &[u8], left: usize) -> Result<u32, OutOfMemory> {
    let mut rest = product;
    let mut lines = 0u32;
    'lines: while !rest.is_empty() {
        let (front, behind) = rest.split_at(front_length(rest));
        page.put(&[
            Piece::Markup("<tspan x=\""),
            Piece::Number(left),
            Piece::Markup(if lines == 0 { "\">" } else { "\" dy=\"11\">" }),
            Piece::Text(front),
            Piece::Markup("</tspan>"),
        ])?;
        rest = behind;
        lines = lines.saturating_add(1);
    }
    Ok(lines)
}

/// Writes the product of a row, and answers how many lines it takes.
fn put_product<'a, D: Device>(
    device: &'a Loaded<D>,
    page: &mut Page,
    design: Design<'a>,
    row: u16,
    down: u32,
) -> Result<u32, OutOfMemory> {
    let burned = Burned {
        device,
        fuses: design.levels(),
        names: design.names,
    };
    let mut product = Vec::new(design.alloc);
    if is_enable::<D>(device, row) {
        product.extend_from_slice(b"enable ")?;
    }
    put_row::<D>(design.alloc, &mut product, &burned, row)?;
    page.put(&[
        Piece::Markup("<text y=\""),
        Piece::Number(down as usize + 3),
        Piece::Markup("\">"),
    ])?;
    let left = LEFT + usize::from(device.columns()) * STEP + 8;
    let lines = put_lines(page, &product, left)?;
    page.put(&[Piece::Markup("</text>")])?;
    Ok(lines)
}

/// Writes a row under what ends so far down, and answers how much room it takes.
pub fn put_array_row<D: Device>(
    device: &Loaded<D>,
    page: &mut Page,
    design: Design,
    row: u16,
    down: u32,
) -> Result<u32, OutOfMemory> {
    let middle = down.saturating_add(LINE);
    let is_used = is_in_use::<D>(device, design.levels(), row);
    page.put(&[Piece::Markup(if is_used { "<g>" } else { "<g class=\"dim\">" })])?;
    put_number::<D>(device, page, row, middle)?;
    if is_whole::<D>(device, design, row) {
        put_whole::<D>(device, page, middle)?;
    } else {
        put_dots::<D>(device, page, design, row, middle)?;
    }
    let lines = if is_used {
        put_product::<D>(device, page, design, row, middle)?
    } else {
        1
    };
    page.put(&[Piece::Markup("</g>\n")])?;
    Ok(lines.saturating_mul(LINE))
}
