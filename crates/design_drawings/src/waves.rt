//! The test vectors as a timing diagram.

use crate::drawn_design::Design;
use crate::labels::{label_length, put_label, put_title_if_long};
use crate::lanes::{Lane, put_lane};
use crate::page::{Page, Piece};
use crate::strips::{LANE, Run, STEP, STRIP, STRIPS, Strip, char_at};
use page_model::{PinFacts, PinUse, has_clock};
use pld_base::OutOfMemory;
use pld_device::{Device, Loaded};

/// Whether a drawn vector drives or tests a pin.
fn is_tried(run: Run, pin: u8) -> bool {
    for vector in run.drawn() {
        if !matches!(char_at(vector, pin), b'N' | b'X') {
            return true;
        }
    }
    false
}

/// Whether a pin has a lane: it is driven or tested, or has a label and a cell.
fn has_lane(run: Run, facts: &PinFacts) -> bool {
    match facts.used_as {
        PinUse::Ground | PinUse::Supply => false,
        _ => {
            facts.cell.is_some() && !facts.label.bytes().is_empty() || is_tried(run, facts.number)
        }
    }
}

/// How high the lanes are together.
fn lanes_height(run: Run) -> u32 {
    let mut height = 0u32;
    for facts in run.design.model.pins.as_slice() {
        if has_lane(run, facts) {
            height = height.saturating_add(LANE);
        }
    }
    height
}

/// How many bytes the longest label of a lane shows, or 8.
fn longest(run: Run) -> u8 {
    let mut most = 8u8;
    for facts in run.design.model.pins.as_slice() {
        let length = label_length(facts.label.bytes());
        if most < length && has_lane(run, facts) {
            most = length;
        }
    }
    most
}

/// The beginning of the first vector, after the labels of the lanes.
pub fn left_of(run: Run) -> u16 {
    40 + 7 * u16::from(longest(run))
}

/// Writes the number of a vector, which links may lead to.
fn put_number(page: &mut Page, strip: Strip, place: u8) -> Result<(), OutOfMemory> {
    let number = strip.index(place) + 1;
    page.put(&[Piece::Markup("<text class=\"m\"")])?;
    if strip.is_linked {
        page.put(&[
            Piece::Markup(" id=\"v"),
            Piece::Number(number),
            Piece::Markup("\""),
        ])?;
    }
    page.put(&[
        Piece::Markup(" x=\""),
        Piece::Number(usize::from(strip.left_of(place)) + usize::from(STEP) / 2),
        Piece::Markup("\" y=\"11\">"),
        Piece::Number(number),
        Piece::Markup("</text>"),
    ])
}

/// Writes the numbers of the vectors of a strip, and a line down between them.
fn put_numbers(page: &mut Page, strip: Strip, height: u32) -> Result<(), OutOfMemory> {
    for place in 0..strip.count {
        put_number(page, strip, place)?;
        page.put(&[
            Piece::Markup("<path class=\"grid\" d=\"M"),
            Piece::Number(usize::from(strip.left_of(place))),
            Piece::Markup(" 16v"),
            Piece::Number(height as usize + 2),
            Piece::Markup("\"/>"),
        ])?;
    }
    page.put(&[Piece::Markup("\n")])
}

/// Writes the label of a lane.
fn put_lane_label(page: &mut Page, facts: &PinFacts, down: u32) -> Result<(), OutOfMemory> {
    page.put(&[
        Piece::Markup("<text class=\"e\" x=\"24\" y=\""),
        Piece::Number(down as usize + 15),
        Piece::Markup("\">"),
        Piece::Number(usize::from(facts.number)),
        Piece::Markup("</text><text x=\"32\" y=\""),
        Piece::Number(down as usize + 15),
        Piece::Markup("\">"),
    ])?;
    put_title_if_long(page, facts.label.bytes())?;
    put_label(page, facts.label.bytes())?;
    page.put(&[Piece::Markup("</text>")])
}

/// Writes the opening of a strip's drawing.
fn put_strip_head(page: &mut Page, strip: Strip, height: u32) -> Result<(), OutOfMemory> {
    let width = usize::from(strip.right()) + 4;
    page.put(&[
        Piece::Markup(
            "<div class=\"wide\" tabindex=\"0\"><svg class=\"waves\" role=\"img\" width=\"",
        ),
        Piece::Number(width),
        Piece::Markup("\" height=\""),
        Piece::Number(height as usize + 20),
        Piece::Markup("\" viewBox=\"0 0 "),
        Piece::Number(width),
        Piece::Markup(" "),
        Piece::Number(height as usize + 20),
        Piece::Markup("\"><title>Vectors "),
        Piece::Number(strip.index(0) + 1),
        Piece::Markup(" to "),
        Piece::Number(strip.index(strip.count)),
        Piece::Markup(
            "</title><desc>A lane for each pin, with its number and label, and a column for each vector.</desc>\n",
        ),
    ])
}

/// Writes the drawing of the vectors of a strip.
pub fn put_strip(page: &mut Page, run: Run, strip: Strip) -> Result<(), OutOfMemory> {
    let height = lanes_height(run);
    put_strip_head(page, strip, height)?;
    put_numbers(page, strip, height)?;
    let mut down = 18u32;
    for facts in run.design.model.pins.as_slice() {
        if has_lane(run, facts) {
            put_lane_label(page, facts, down)?;
            let pin = facts.number;
            put_lane(page, Lane { run, pin, down }, strip)?;
            down = down.saturating_add(LANE);
        }
    }
    page.put(&[Piece::Markup("</svg></div>\n")])
}

/// Writes the drawings of the vectors, in strips.
fn put_strips(page: &mut Page, run: Run) -> Result<(), OutOfMemory> {
    let all = run.drawn().len();
    let left = left_of(run);
    for number in 0..STRIPS {
        let first = STRIP * u16::from(number);
        if usize::from(first) < all {
            let rest = all - usize::from(first);
            let count = if rest < usize::from(STRIP) {
                rest as u8
            } else {
                STRIP as u8
            };
            put_strip(
                page,
                run,
                Strip {
                    first,
                    count,
                    left,
                    is_linked: true,
                },
            )?;
        }
    }
    Ok(())
}

/// The numbers of the vectors' first points, and that of the point after the last one.
pub fn firsts_of<D: Device>(device: &Loaded<D>, design: Design) -> Result<Vec<usize>, OutOfMemory> {
    let mut firsts = Vec::new(design.alloc);
    let mut point = 0usize;
    for vector in design.file.vectors.as_slice() {
        firsts.push(point)?;
        point = point.saturating_add(if has_clock::<D>(device, vector) { 3 } else { 1 });
    }
    firsts.push(point)?;
    Ok(firsts)
}

/// Writes the diagram of the vectors, in strips, and how many vectors there are that it does not draw.
pub fn put_waves(page: &mut Page, run: Run) -> Result<(), OutOfMemory> {
    put_strips(page, run)?;
    let all = run.design.file.vectors.as_slice().len();
    let drawn = run.drawn().len();
    if all > drawn {
        page.put(&[
            Piece::Markup("<p>And "),
            Piece::Number(all - drawn),
            Piece::Markup(" more vectors, which are not drawn.</p>\n"),
        ])?;
    }
    Ok(())
}
