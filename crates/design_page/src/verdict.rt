//! Whether the vectors agree, in a sentence.

use crate::made::without_end;
use crate::outcome::Outcome;
use design_drawings::{DRAWN, Page, Piece};
use device_sim::{Mismatch, Report};
use page_model::PageModel;
use pld_base::OutOfMemory;

/// A run, with the labels of the pins and the line of the source that each vector is on; no lines if there is no source.
#[derive(Clone, Copy)]
pub struct Told<'a> {
    pub model: &'a PageModel,
    pub lines: &'a [u32],
}

/// How many vectors have a disagreement; those of a vector are side by side.
fn failing(list: &[Mismatch]) -> usize {
    let mut count = 0usize;
    let mut last = 0u32;
    for seen in list {
        if seen.vector != last {
            count = count.saturating_add(1);
        }
        last = seen.vector;
    }
    count
}

/// Writes a disagreement as a link: to its vector, or to the list of them if that is not drawn.
fn put_link(page: &mut Page, told: Told, seen: Mismatch) -> Result<(), OutOfMemory> {
    let vector = seen.vector as usize;
    if vector <= DRAWN {
        page.put(&[
            Piece::Markup("<a href=\"#v"),
            Piece::Number(vector),
            Piece::Markup("\">"),
        ])?;
    } else {
        page.put(&[Piece::Markup("<a href=\"#disagreements\">")])?;
    }
    page.put(&[
        Piece::Markup("vector "),
        Piece::Number(vector),
        Piece::Markup(", pin "),
        Piece::Number(usize::from(seen.pin)),
        Piece::Markup(" <code>"),
        Piece::Text(told.model.label(seen.pin)),
        Piece::Markup("</code></a>"),
    ])
}

/// Writes the line that a vector is on, as a link.
fn put_line(page: &mut Page, told: Told, vector: u32) -> Result<(), OutOfMemory> {
    let place = (vector as usize).saturating_sub(1);
    match told.lines.get(place) {
        None => Ok(()),
        Some(line) => page.put(&[
            Piece::Markup(" (<a href=\"#L"),
            Piece::Number(*line as usize),
            Piece::Markup("\">line "),
            Piece::Number(*line as usize),
            Piece::Markup("</a>)"),
        ]),
    }
}

/// Writes that vectors fail, and the first disagreement.
fn put_failing(
    page: &mut Page,
    told: Told,
    report: &Report,
    first: Mismatch,
) -> Result<(), OutOfMemory> {
    let list = report.list.as_slice();
    let count = failing(list);
    page.put(&[
        Piece::Markup("<p class=\"verdict wrong\">✗ "),
        Piece::Number(count),
        Piece::Markup(" of "),
        Piece::Number(report.vectors as usize),
        Piece::Markup(match (count, report.vectors) {
            (1, 1) => " vector fails: ",
            (1, _) => " vectors fails: ",
            _ => " vectors fail, first ",
        }),
    ])?;
    put_link(page, told, first)?;
    put_line(page, told, first.vector)?;
    page.put(&[Piece::Markup("</p>\n")])
}

/// Writes that all vectors agree, or that the file has no vectors.
fn put_agreeing(page: &mut Page, vectors: u32) -> Result<(), OutOfMemory> {
    match vectors {
        0 => page.put(&[Piece::Markup("<p class=\"verdict\">There are no test vectors.</p>\n")]),
        1 => page.put(&[Piece::Markup("<p class=\"verdict right\">✓ The vector agrees</p>\n")]),
        _ => page.put(&[
            Piece::Markup("<p class=\"verdict right\">✓ All "),
            Piece::Number(vectors as usize),
            Piece::Markup(" vectors agree</p>\n"),
        ]),
    }
}

/// Writes whether the vectors agree.
pub fn put_verdict(page: &mut Page, told: Told, outcome: &Outcome) -> Result<(), OutOfMemory> {
    match outcome {
        Outcome::NotRun(line) => page.put(&[
            Piece::Markup("<p class=\"verdict wrong\">✗ The vectors are not run: <code>"),
            Piece::Text(without_end(line)),
            Piece::Markup("</code></p>\n"),
        ]),
        Outcome::Ran(run) => match run.report.list.as_slice() {
            [] => put_agreeing(page, run.report.vectors),
            [first, ..] => put_failing(page, told, &run.report, *first),
        },
    }
}
