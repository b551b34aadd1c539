//! The disagreements of a run, as a list.

ghost use Rattle.std.specs.Prelude.{◌≡◌, ◌++◌, OnOk, flat_map, take};
ghost use Rattle.design_drawings.specs.Disagreements.{level_words, listed, mismatch_item, mismatch_items};

use crate::drawn_design::Design;
use crate::page::{Page, Piece};
use device_sim::Mismatch;
use pld_base::OutOfMemory;

/// How many disagreements are listed at most.
const LISTED: usize = 256;

/// What a character of a test says, or what was found.
fn level_word(char: u8) -> &'static str
    ensures { result.now ≡ level_words char }
{
    match char {
        b'H' => "driven high",
        b'L' => "driven low",
        _ => "released",
    }
}

/// Writes a disagreement as a line of a list.
fn put_mismatch(page: &mut Page, design: Design, seen: Mismatch) -> Result<(), OutOfMemory>
    ensures { OnOk result (page.new ≡ page.old ++ mismatch_item design.entry.model.now.pins seen) }
{
    page.put(&[
        Piece::Markup("<li>vector "),
        Piece::Number(seen.vector as usize),
        Piece::Markup(", pin "),
        Piece::Number(usize::from(seen.pin)),
        Piece::Markup(" <code>"),
        Piece::Text(design.model.label(seen.pin)),
        Piece::Markup("</code>: expected "),
        Piece::Markup(level_word(seen.expects)),
        Piece::Markup(", found "),
        Piece::Markup(level_word(seen.finds)),
        Piece::Markup("</li>\n"),
    ])
}

/// The first disagreements, as many as are listed.
fn listed(list: &[Mismatch]) -> &[Mismatch]
    ensures { result.now ≡ take listed list.now }
{
    if list.len() <= LISTED {
        return list;
    }
    list.split_at(LISTED).0
}

/// Writes disagreements, one after the other.
fn put_items(page: &mut Page, design: Design, list: &[Mismatch]) -> Result<(), OutOfMemory>
    ensures { OnOk result (page.new
        ≡ page.old ++ flat_map (mismatch_item design.entry.model.now.pins) list.now) }
{
    for seen in list {
        put_mismatch(page, design, *seen)?;
    }
    Ok(())
}

/// Writes the first disagreements of a run, as lines of a list in the order of the run.
pub fn put_mismatches(page: &mut Page, design: Design, list: &[Mismatch]) -> Result<(), OutOfMemory>
    ensures { OnOk result (page.new ≡ page.old ++ mismatch_items design.entry.model.now.pins list.now) }
{
    put_items(page, design, listed(list))
}

/// Writes the part of a run's disagreements, if there are some, and how many more there are than it lists.
pub fn put_disagreements(
    page: &mut Page,
    design: Design,
    list: &[Mismatch],
) -> Result<(), OutOfMemory> {
    if list.is_empty() {
        return Ok(());
    }
    page.put(&[Piece::Markup(
        "<h3 id=\"disagreements\">Disagreements</h3>\n<ul class=\"bad\">\n",
    )])?;
    put_mismatches(page, design, list)?;
    page.put(&[Piece::Markup("</ul>\n")])?;
    if list.len() > LISTED {
        page.put(&[
            Piece::Markup("<p>And "),
            Piece::Number(list.len() - LISTED),
            Piece::Markup(" more disagreements.</p>\n"),
        ])?;
    }
    Ok(())
}
