//! Sources with the outlines of their modules, or with the places at which they are refused.

use crate::cases::Case;
use crate::faults::put_refusal;
use crate::outlines::put_module;
use crate::sources::{framed, marked, module_of};
use std::alloc::Global;
use test_rows::{Found, halves, unescaped};

/// What precedes and after the source of a row, and before and after its outline.
#[derive(Clone, Copy)]
struct Frame {
    front: &'static str,
    back: &'static str,
    before: &'static str,
    behind: &'static str,
}

/// A frame with nothing after the outline.
fn open_frame(front: &'static str, back: &'static str, before: &'static str) -> Frame {
    Frame {
        front,
        back,
        before,
        behind: "",
    }
}

/// What surrounds the rows of a kind.
fn frame_of(kind: &str) -> Option<Frame> {
    match kind {
        "Expressions" => Some(Frame {
            front: "module m equations y = ",
            back: "; end",
            before: "equations: y=",
            behind: ";",
        }),
        "Statements" => Some(open_frame("module m equations ", " end", "equations: ")),
        "Declarations" => Some(open_frame("module m ", " end", "")),
        "Transitions" => Some(open_frame(
            "module m state_diagram s state 0: ",
            " end",
            "diagram: s state 0: ",
        )),
        "Whole modules" => Some(open_frame("", "", "")),
        _ => None,
    }
}

/// A text without the blank at its end.
fn trimmed(alloc: Global, text: &Found) -> Found {
    let mut trimmed = Found::new(alloc);
    match text.bytes() {
        [front @ .., b' '] => trimmed.put(front),
        bytes => trimmed.put(bytes),
    }
    trimmed
}

/// The outline of a source, or its refusal.
fn outline_of(alloc: Global, source: &[u8]) -> Found {
    let mut found = Found::new(alloc);
    if let Some(module) = module_of(alloc, source, &mut found) {
        put_module(&mut found, &module);
    }
    trimmed(alloc, &found)
}

/// Bytes that a row's text reports, between two other texts.
fn framed_text(alloc: Global, front: &str, text: &str, back: &str) -> Option<Found> {
    match unescaped(alloc, text) {
        Some(bytes) => Some(framed(alloc, front, bytes.as_slice(), back)),
        None => None,
    }
}

/// The case of a row `SOURCE => OUTLINE`, the place of the kind says what around them.
pub fn outlined(alloc: Global, kind: &str, text: &str) -> Option<Case> {
    let frame = frame_of(kind)?;
    let (source, outline) = halves(text)?;
    let source = framed_text(alloc, frame.front, source, frame.back)?;
    let outline = framed_text(alloc, frame.before, outline, frame.behind)?;
    Some(Case {
        expected: trimmed(alloc, &outline),
        found: outline_of(alloc, source.bytes()),
    })
}

/// Whether a source is read, or its refusal.
pub fn reading(alloc: Global, source: &[u8]) -> Found {
    let mut found = Found::new(alloc);
    if module_of(alloc, source, &mut found).is_some() {
        found.text("read");
    }
    found
}

/// The case of a source that is refused as Syntax at its mark.
pub fn refused(alloc: Global, text: &str) -> Option<Case> {
    let (source, place) = marked(alloc, text)?;
    let mut expected = Found::new(alloc);
    put_refusal(&mut expected, "Syntax", place);
    Some(Case {
        expected,
        found: reading(alloc, source.bytes()),
    })
}
