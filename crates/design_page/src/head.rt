//! The head of a page.

use crate::frame::put_front;
use crate::listed_warnings::put_warning_list;
use crate::outcome::Outcome;
use crate::usage::put_usage;
use crate::verdict::{Told, put_verdict};
use design_drawings::{Design, Page, Piece};
use jedec_file::{byte_sum, fuse_sum};
use pld_base::{OutOfMemory, put_hex};
use pld_device::{Device, Loaded};
use shown_text::printable;

/// What a page is made of, beside the design.
#[derive(Clone, Copy)]
pub struct Parts<'a> {
    /// The name of the module, or of the fuse file.
    pub name: &'a [u8],
    /// The title, empty if there isn't one.
    pub title: &'a [u8],
    /// The line that sums it up.
    pub summary: &'a [u8],
    /// The name of the file that the page is made of.
    pub file_name: &'a [u8],
    /// The bytes of the fuse file.
    pub file: &'a [u8],
    /// The source, empty if there isn't one.
    pub source: &'a [u8],
    /// The line of it that each vector is on.
    pub lines: &'a [u32],
    /// The lines of the warnings on it.
    pub warnings: &'a [u8],
}

/// The bytes from the start byte to the end byte, which the file sum is of.
fn summed_bytes(file: &[u8]) -> &[u8] {
    let Some(first) = file.iter().position(|byte| *byte == 2) else {
        return b"";
    };
    let (_front, from) = file.split_at(first);
    match from.iter().position(|byte| *byte == 3) {
        Some(end) => from.split_at(end + 1).0,
        None => b"",
    }
}

/// Writes a sum as four hexadecimal digits.
fn put_sum(
    page: &mut Page,
    design: Design,
    word: &'static str,
    sum: u16,
) -> Result<(), OutOfMemory> {
    let mut digits = Vec::new(design.alloc);
    put_hex(&mut digits, sum)?;
    page.put(&[
        Piece::Markup(word),
        Piece::Markup(" <code>"),
        Piece::Text(&digits),
        Piece::Markup("</code>"),
    ])
}

/// Writes the title that there may be, the device and the file.
fn put_title(page: &mut Page, design: Design, parts: Parts) -> Result<(), OutOfMemory> {
    let shown = printable(design.alloc, parts.title)?;
    page.put(&[
        Piece::Markup("<p>"),
        Piece::Text(shown.as_bytes()),
        Piece::Markup(if parts.title.is_empty() { "" } else { " · " }),
    ])?;
    page.put(&[
        Piece::Markup(design.model.device.text()),
        Piece::Markup(" · <code>"),
        Piece::Text(parts.file_name),
        Piece::Markup("</code></p>\n<p class=\"hint\">"),
    ])?;
    put_sum(page, design, "fuse sum", fuse_sum(design.levels()))?;
    put_sum(
        page,
        design,
        " · file sum",
        byte_sum(summed_bytes(parts.file)),
    )?;
    page.put(&[Piece::Markup("</p>\n")])
}

/// Writes the head: what the design is, how much of the device it uses, its verdict and its warnings.
pub fn put_head<D: Device>(
    device: &Loaded<D>,
    page: &mut Page,
    design: Design,
    parts: Parts,
    outcome: &Outcome,
) -> Result<(), OutOfMemory> {
    put_front(page, parts.name)?;
    page.put(&[Piece::Markup("<div class=\"top\"><div>\n")])?;
    put_title(page, design, parts)?;
    page.put(&[Piece::Markup("</div>\n")])?;
    put_usage(page, design.model, device.rows())?;
    page.put(&[Piece::Markup("</div>\n")])?;
    let told = Told {
        model: design.model,
        lines: parts.lines,
    };
    put_verdict(page, told, outcome)?;
    put_warning_list(page, parts.file_name, parts.warnings)?;
    put_links(page, parts)
}

/// Writes the links to the parts.
fn put_links(page: &mut Page, parts: Parts) -> Result<(), OutOfMemory> {
    page.put(&[Piece::Markup(
        "<nav><a href=\"#chip\">Chip</a><a href=\"#cells\">Cells</a><a href=\"#fuses\">Fuses</a><a href=\"#vectors\">Vectors</a>",
    )])?;
    if !parts.source.is_empty() {
        page.put(&[Piece::Markup("<a href=\"#source\">Source</a>")])?;
    }
    page.put(&[Piece::Markup("<a href=\"#summary\">Summary</a></nav>\n")])
}
