//! Why a pin has the level that a test found: the rows of its cell, with the levels of their literals.

ghost use Rattle.std.specs.Prelude.{◌<◌, length};

use crate::labels::put_behind;
use crate::page::{Page, Piece};
use crate::seen::Seen;
use crate::strips::{Run, Strip};
use crate::valued_rows::{level_char, put_if_used, put_row, put_sum};
use crate::waves::{left_of, put_strip};
use device_sim::Mismatch;
use page_model::{CellFacts, Drives, PinUse};
use pld_base::OutOfMemory;
use pld_device::{Device, Loaded, cell_on};

/// Writes the rows that reset a cell, and that enable it at times, as they are at the end of a vector.
fn put_controls<D: Device>(
    device: &Loaded<D>,
    page: &mut Page,
    end: Seen,
    facts: CellFacts,
) -> Result<(), OutOfMemory> {
    put_if_used::<D>(device, page, end, "reset", facts.reset)?;
    match facts.drives {
        Drives::ByRow(row) => put_row::<D>(device, page, end, "enable", row),
        _ => Ok(()),
    }
}

/// Whether a vector turns its clocks.
fn is_clocked(run: Run, index: usize) -> bool {
    let (first, next) = run.points(index);
    next.saturating_sub(first) == 3
}

/// A vector before its clocks are turned, or at its end.
fn seen_at<'a>(run: Run<'a>, index: usize, is_before: bool) -> Seen<'a> {
    let (first, next) = run.points(index);
    let point = if is_before {
        first
    } else {
        next.saturating_sub(1)
    };
    Seen { run, index, point }
}

/// Writes the levels of all pins that have a label, at the end of a vector.
fn put_all_levels(page: &mut Page, run: Run, index: usize) -> Result<(), OutOfMemory> {
    let end = seen_at(run, index, false);
    page.put(&[Piece::Markup("<p class=\"hint\">At the end of the vector:<code>")])?;
    for facts in run.design.model.pins.as_slice() {
        let is_signal = !matches!(
            facts.used_as,
            PinUse::Ground | PinUse::Supply | PinUse::Unused
        );
        if is_signal && !facts.label.bytes().is_empty() {
            put_behind(page, facts.label.bytes())?;
            page.put(&[
                Piece::Markup("="),
                Piece::Markup(level_char(Some(end.level(facts.number)))),
            ])?;
        }
    }
    page.put(&[Piece::Markup("</code></p>\n")])
}

/// When the rows of a cell are looked at, in words.
fn when_word(is_before: bool) -> &'static str {
    if is_before {
        "<p class=\"hint\">Its product terms before the clock, which the register takes; reset and enable at the end of the vector</p>\n"
    } else {
        "<p class=\"hint\">Its product terms at the end of the vector</p>\n"
    }
}

/// Writes the rows of a cell with the levels of their literals: the data rows of a register as they are before its clock.
fn put_cell<D: Device>(
    device: &Loaded<D>,
    page: &mut Page,
    run: Run,
    index: usize,
    cell: u8,
) -> Result<(), OutOfMemory>
    requires { cell < length D.table.cells }
{
    let Some(facts) = run.design.model.cell(cell) else {
        return Ok(());
    };
    let is_before = facts.is_register && is_clocked(run, index);
    let seen = seen_at(run, index, is_before);
    page.put(&[
        Piece::Markup(when_word(is_before)),
        Piece::Markup("<table class=\"eval\">\n"),
    ])?;
    put_controls::<D>(device, page, seen_at(run, index, false), facts)?;
    put_if_used::<D>(device, page, seen, "preset", facts.preset)?;
    put_sum::<D>(device, page, seen, cell)?;
    page.put(&[Piece::Markup("</table>\n")])
}

/// Writes the vectors around one, as a strip.
fn put_window(page: &mut Page, run: Run, index: u16) -> Result<(), OutOfMemory> {
    let all = run.design.file.vectors.as_slice().len();
    let first = index.saturating_sub(4);
    let rest = all.saturating_sub(usize::from(first));
    let count = if rest < 9 { rest as u8 } else { 9 };
    put_strip(
        page,
        run,
        Strip {
            first,
            count,
            left: left_of(run),
            is_linked: false,
        },
    )
}

/// Writes why a pin disagrees with a vector: the levels that the device sees, the rows of the pin's cell, and the vectors around
/// it unless all are drawn together.
pub fn put_cause<D: Device>(
    device: &Loaded<D>,
    page: &mut Page,
    run: Run,
    seen: Mismatch,
) -> Result<(), OutOfMemory> {
    let index = (seen.vector as usize).saturating_sub(1);
    put_all_levels(page, run, index)?;
    match cell_on::<D>(device, seen.pin) {
        Some(cell) => put_cell::<D>(device, page, run, index, cell)?,
        None => page.put(&[Piece::Markup("<p>The device has no cell on this pin.</p>\n")])?,
    }
    if run.design.file.vectors.as_slice().len() > 16 && index <= 9999 {
        put_window(page, run, index as u16)?;
    }
    Ok(())
}
