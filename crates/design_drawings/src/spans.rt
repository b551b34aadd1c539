//! The line of a lane, span by span.

use crate::lanes::{HIGH, LOW};
use crate::page::{Page, Piece};
use pld_base::OutOfMemory;

/// The pen of a line: how far down it is, none if it is up.
#[derive(Clone, Copy, PartialEq, Eq)]
pub struct Pen {
    at: Option<usize>,
}

impl Pen {
    /// A pen that is up.
    pub fn up() -> Pen {
        Pen { at: None }
    }
}

/// A span of a line, from here to the next one: how far down it is, none if nothing drives the pin.
#[derive(Clone, Copy)]
pub struct Span {
    left: usize,
    at: Option<usize>,
}

impl Span {
    /// A span of a level in a lane that is so far down.
    pub fn new(left: u16, level: Option<bool>, down: u32) -> Span {
        let at = match level {
            Some(true) => Some(down as usize + usize::from(HIGH)),
            Some(false) => Some(down as usize + usize::from(LOW)),
            None => None,
        };
        Span {
            left: usize::from(left),
            at,
        }
    }
}

/// Draws the line up to here, if the pen is down.
pub fn put_until(page: &mut Page, pen: Pen, left: u16) -> Result<(), OutOfMemory> {
    match pen.at {
        Some(_) => page.put(&[Piece::Markup("H"), Piece::Number(usize::from(left))]),
        None => Ok(()),
    }
}

/// Draws the line up to a span, and moves the pen there.
pub fn put_span(page: &mut Page, pen: Pen, span: Span) -> Result<Pen, OutOfMemory> {
    if pen.at != span.at {
        match (pen.at, span.at) {
            (Some(_), Some(to)) => page.put(&[
                Piece::Markup("H"),
                Piece::Number(span.left),
                Piece::Markup("V"),
                Piece::Number(to),
            ])?,
            (Some(_), None) => page.put(&[Piece::Markup("H"), Piece::Number(span.left)])?,
            (None, Some(to)) => page.put(&[
                Piece::Markup("M"),
                Piece::Number(span.left),
                Piece::Markup(" "),
                Piece::Number(to),
            ])?,
            (None, None) => {}
        }
    }
    Ok(Pen { at: span.at })
}
