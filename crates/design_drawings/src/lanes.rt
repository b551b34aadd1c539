//! A lane of the timing diagram: what one pin does from vector to vector.

use crate::page::{Page, Piece};
use crate::spans::{Pen, Span, put_span, put_until};
use crate::strips::{BEFORE, Run, STEP, Strip, TURNED};
use device_sim::Mismatch;
use pld_base::OutOfMemory;

/// How far down in a lane a high level, a low one and a released pin are.
pub const HIGH: u8 = 5;

pub const LOW: u8 = 17;

pub const MIDDLE: u8 = 11;

/// A lane: its pin, and how far down it is.
#[derive(Clone, Copy)]
pub struct Lane<'a> {
    pub run: Run<'a>,
    pub pin: u8,
    pub down: u32,
}

impl<'a> Lane<'a> {
    /// The level that the test drives at the pin in a vector while its clocks are turned or not, if it does.
    fn driven_level(&self, index: usize, is_turned: bool) -> Option<bool> {
        match self.run.char_at(index, self.pin) {
            b'0' => Some(false),
            b'1' => Some(true),
            b'C' => Some(is_turned),
            b'K' => Some(!is_turned),
            _ => None,
        }
    }

    /// The level of the pin at a point of a vector, if the test or the device drives it.
    fn level(&self, index: usize, point: usize, is_turned: bool) -> Option<bool> {
        match self.driven_level(index, is_turned) {
            None => self.run.level(point, self.pin),
            driven => driven,
        }
    }
}

/// Writes the line of a vector with its clocks at rest, turned, and back.
fn put_clocked(
    page: &mut Page,
    lane: Lane,
    index: usize,
    left: u16,
    pen: Pen,
) -> Result<Pen, OutOfMemory> {
    let (first, _) = lane.run.points(index);
    let before = lane.level(index, first, false);
    let turned = lane.level(index, first.saturating_add(1), true);
    let after = lane.level(index, first.saturating_add(2), false);
    let turns = left.saturating_add(BEFORE);
    let pen = put_span(page, pen, Span::new(left, before, lane.down))?;
    let pen = put_span(page, pen, Span::new(turns, turned, lane.down))?;
    put_span(
        page,
        pen,
        Span::new(turns.saturating_add(TURNED), after, lane.down),
    )
}

/// Writes the line of a vector.
fn put_vector(
    page: &mut Page,
    lane: Lane,
    index: usize,
    left: u16,
    pen: Pen,
) -> Result<Pen, OutOfMemory> {
    let (first, next) = lane.run.points(index);
    if next.saturating_sub(first) == 3 {
        return put_clocked(page, lane, index, left, pen);
    }
    put_span(
        page,
        pen,
        Span::new(left, lane.level(index, first, false), lane.down),
    )
}

/// Writes the line of the levels that are driven.
fn put_levels(page: &mut Page, lane: Lane, strip: Strip) -> Result<(), OutOfMemory> {
    let mut pen = Pen::up();
    page.put(&[Piece::Markup("<path class=\"level\" d=\"M0 0")])?;
    for place in 0..strip.count {
        pen = put_vector(page, lane, strip.index(place), strip.left_of(place), pen)?;
    }
    put_until(page, pen, strip.right())?;
    page.put(&[Piece::Markup("\"/>")])
}

/// Writes the line of the vectors at the end of which nothing drives the pin.
fn put_released(page: &mut Page, lane: Lane, strip: Strip) -> Result<(), OutOfMemory> {
    page.put(&[Piece::Markup("<path class=\"free\" d=\"M0 0")])?;
    for place in 0..strip.count {
        let index = strip.index(place);
        let (_, next) = lane.run.points(index);
        if lane.level(index, next.saturating_sub(1), false).is_none() {
            page.put(&[
                Piece::Markup("M"),
                Piece::Number(usize::from(strip.left_of(place))),
                Piece::Markup(" "),
                Piece::Number(lane.down as usize + usize::from(MIDDLE)),
                Piece::Markup("h24"),
            ])?;
        }
    }
    page.put(&[Piece::Markup("\"/>")])
}

/// How far down the mark of a test is: where what was expected would be.
fn mark_height(expects: u8) -> u8 {
    match expects {
        b'H' => HIGH,
        b'L' => LOW,
        _ => MIDDLE,
    }
}

/// Writes a mark at the end of each vector in which the pin was tested and agrees.
fn put_marks(page: &mut Page, lane: Lane, strip: Strip) -> Result<(), OutOfMemory> {
    page.put(&[Piece::Markup("<path class=\"mark\" d=\"M0 0")])?;
    for place in 0..strip.count {
        let index = strip.index(place);
        let char = lane.run.char_at(index, lane.pin);
        if matches!(char, b'H' | b'L' | b'Z') && lane.run.mismatch(index, lane.pin).is_none() {
            page.put(&[
                Piece::Markup("M"),
                Piece::Number(usize::from(strip.left_of(place)) + 21),
                Piece::Markup(" "),
                Piece::Number(lane.down as usize + usize::from(mark_height(char))),
                Piece::Markup("h0"),
            ])?;
        }
    }
    page.put(&[Piece::Markup("\"/>")])
}

/// Writes a disagreement: what was expected, and what was found.
fn put_wrong(page: &mut Page, seen: Mismatch, left: u16, down: u32) -> Result<(), OutOfMemory> {
    page.put(&[
        Piece::Markup("<g class=\"wrong\"><title>Expected "),
        Piece::Text(&[seen.expects]),
        Piece::Markup(", found "),
        Piece::Text(&[seen.finds]),
        Piece::Markup("</title><rect x=\""),
        Piece::Number(usize::from(left)),
        Piece::Markup("\" y=\""),
        Piece::Number(down as usize + 1),
        Piece::Markup("\" width=\"24\" height=\"20\"/><text class=\"m\" x=\""),
        Piece::Number(usize::from(left) + usize::from(STEP) / 2),
        Piece::Markup("\" y=\""),
        Piece::Number(down as usize + 15),
        Piece::Markup("\">"),
        Piece::Text(&[seen.expects, b'/', seen.finds]),
        Piece::Markup("</text></g>"),
    ])
}

/// Writes the lane of a pin over the vectors of a strip.
pub fn put_lane(page: &mut Page, lane: Lane, strip: Strip) -> Result<(), OutOfMemory> {
    put_levels(page, lane, strip)?;
    put_released(page, lane, strip)?;
    put_marks(page, lane, strip)?;
    for place in 0..strip.count {
        if let Some(seen) = lane.run.mismatch(strip.index(place), lane.pin) {
            put_wrong(page, seen, strip.left_of(place), lane.down)?;
        }
    }
    page.put(&[Piece::Markup("\n")])
}
