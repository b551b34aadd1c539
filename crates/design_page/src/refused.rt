//! The page of a source that is not compiled.

ghost use Rattle.std.specs.Prelude.{◌≤◌, length};

use crate::frame::{put_end, put_front, put_heading};
use crate::made::{Input, Made, without_end};
use crate::places::{Found, expanded_text, origins_of};
use crate::source::put_text;
use crate::telling::put_refusal;
use crate::told_places::told_place;
use design_drawings::{Page, Piece};
use pld_base::{OutOfMemory, Place};
use std::alloc::Global;

/// Writes a place of the source.
fn put_place(page: &mut Page, place: Place) -> Result<(), OutOfMemory> {
    page.put(&[
        Piece::Markup("line "),
        Piece::Number(place.line as usize),
        Piece::Markup(", column "),
        Piece::Number(place.column as usize),
    ])
}

/// Writes the place of the refusal, and if that is expanded.
fn put_places(page: &mut Page, found: Found) -> Result<(), OutOfMemory> {
    page.put(&[Piece::Markup("<p>In the source: ")])?;
    put_place(page, found.source)?;
    if let Some(call) = found.call {
        page.put(&[Piece::Markup(", which is expanded at ")])?;
        put_place(page, call)?;
    }
    page.put(&[Piece::Markup(".</p>\n")])
}

/// Writes the source with the refusal's place, and the expanded text where macros have moved it.
fn put_texts(
    page: &mut Page,
    alloc: Global,
    text: &[u8],
    found: Option<Found>,
) -> Result<(), OutOfMemory>
    requires { length text.now ≤ 1048576 }
{
    put_heading(page, "source", "Source")?;
    let Some(found) = found else {
        return put_text(page, alloc, text, None);
    };
    put_places(page, found)?;
    put_text(page, alloc, text, Some(found.source))?;
    if found.source == found.expanded && found.call.is_none() {
        return Ok(());
    }
    page.put(&[Piece::Markup(
        "<h2 id=\"expanded\">Expanded text</h2>\n<p class=\"hint\">Comments, directives and macros are replaced here; the refusal counts its place in this text.</p>\n",
    )])?;
    let expanded = expanded_text(alloc, text)?;
    put_text(page, alloc, &expanded, Some(found.expanded))
}

/// The page of a source that is not compiled, with the line on why.
fn refused_page(
    alloc: Global,
    input: Input,
    line: &[u8],
    found: Option<Found>,
) -> Result<Vec<u8>, OutOfMemory>
    requires { length input.bytes.now ≤ 1048576 }
{
    let mut page = Page::new(alloc);
    put_front(&mut page, input.name)?;
    page.put(&[
        Piece::Markup("<p class=\"refusal\">"),
        Piece::Text(line),
        Piece::Markup("</p>\n"),
    ])?;
    put_texts(&mut page, alloc, input.bytes, found)?;
    put_end(&mut page)?;
    Ok(page.into_bytes())
}

/// The place in a source that a line of the report gives, if it gives one.
fn place_of(alloc: Global, text: &[u8], line: &[u8]) -> Result<Option<Found>, OutOfMemory>
    requires { length text.now ≤ 1048576 }
{
    match told_place(line) {
        Some(place) => Ok(Some(origins_of(alloc, text)?.at(place))),
        None => Ok(None),
    }
}

/// What results from a source that is not compiled, with the line on why.
pub fn made_refused(
    alloc: Global,
    input: Input,
    line: &[u8],
    status: u8,
) -> Result<Made, OutOfMemory>
    requires { length input.bytes.now ≤ 1048576 }
{
    let found = place_of(alloc, input.bytes, line)?;
    let mut report = Vec::from_slice(alloc, line)?;
    if let Some(found) = found {
        put_refusal(alloc, &mut report, input, line, found)?;
    }
    Ok(Made {
        status,
        report,
        page: Some(refused_page(alloc, input, without_end(line), found)?),
    })
}
