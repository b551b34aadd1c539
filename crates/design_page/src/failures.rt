//! A card for each disagreement of a run, as far as there is room.

use crate::lines::line_at;
use crate::verdict::Told;
use design_drawings::{Page, Piece, Run, put_cause};
use device_sim::Mismatch;
use pld_base::OutOfMemory;
use pld_device::{Device, Loaded};
use shown_text::printable;

/// How many cards there are at most.
const CARDS: usize = 12;

/// What a character of a test says, or what was found.
fn level_word(char: u8) -> &'static str {
    match char {
        b'H' => "high",
        b'L' => "low",
        _ => "released",
    }
}

/// Writes the line of the test, if there is a source.
fn put_test(
    page: &mut Page,
    run: Run,
    told: Told,
    source: &[u8],
    vector: u32,
) -> Result<(), OutOfMemory> {
    let place = (vector as usize).saturating_sub(1);
    let Some(line) = told.lines.get(place) else {
        return Ok(());
    };
    let shown = printable(run.design.alloc, line_at(source, *line))?;
    page.put(&[
        Piece::Markup("<p class=\"hint\">The test, <a href=\"#L"),
        Piece::Number(*line as usize),
        Piece::Markup("\">line "),
        Piece::Number(*line as usize),
        Piece::Markup("</a></p>\n<pre class=\"test\">"),
        Piece::Text(shown.as_bytes()),
        Piece::Markup("</pre>\n"),
    ])
}

/// Writes the heading of a card.
fn put_card_heading(page: &mut Page, told: Told, seen: Mismatch) -> Result<(), OutOfMemory> {
    page.put(&[
        Piece::Markup("<section class=\"card\">\n<h3>✗ Vector "),
        Piece::Number(seen.vector as usize),
        Piece::Markup(", pin "),
        Piece::Number(usize::from(seen.pin)),
        Piece::Markup(" <code>"),
        Piece::Text(told.model.label(seen.pin)),
        Piece::Markup("</code>: expected "),
        Piece::Markup(level_word(seen.expects)),
        Piece::Markup(", found "),
        Piece::Markup(level_word(seen.finds)),
        Piece::Markup("</h3>\n"),
    ])
}

/// Writes a card for each of the first disagreements.
pub fn put_failures<D: Device>(
    device: &Loaded<D>,
    page: &mut Page,
    run: Run,
    told: Told,
    source: &[u8],
) -> Result<(), OutOfMemory> {
    let list = run.run.report.list.as_slice();
    let (first, _) = list.split_at(list.len().min(CARDS));
    for seen in first {
        put_card_heading(page, told, *seen)?;
        put_test(page, run, told, source, seen.vector)?;
        put_cause::<D>(device, page, run, *seen)?;
        page.put(&[Piece::Markup("</section>\n")])?;
    }
    Ok(())
}
