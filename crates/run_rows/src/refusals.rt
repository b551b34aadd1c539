//! Sources that are refused: a block each, after what all blocks of a section share.

use crate::answers::{compiled, put_fault};
use crate::texts::{lines_of, number_of};
use abel_compile::CompileFault;
use std::alloc::{AllocError, Global};
use test_rows::{Found, Report, Row, Section, unescaped};

/// Who refuses a source.
#[derive(Clone, Copy)]
pub enum Phase {
    /// What is said of the source.
    Source,
    /// The device: its pins, or the fit.
    Fit,
}

/// Whether a fault is of a phase.
fn is_of(fault: &CompileFault, phase: Phase) -> bool {
    match (fault, phase) {
        (CompileFault::Source(..), Phase::Source) => true,
        (CompileFault::Place(..), Phase::Fit) => true,
        (CompileFault::Fit(..), Phase::Fit) => true,
        _ => false,
    }
}

/// The line on why a source has no fuse file, without its `error`.
pub fn refusal_found(alloc: Global, source: &str, phase: Phase) -> Found {
    let mut found = Found::new(alloc);
    match compiled(alloc, source.as_bytes()) {
        Ok(made) => found.put(&made.summary),
        Err(fault) => {
            put_fault(&mut found, &fault);
            if !is_of(&fault, phase) {
                found.text(" by another phase")
            }
        }
    }
    found
}

/// A block's lines after a front, with escapes, as a source.
fn source_of(alloc: Global, front: &str, block: &[Row<'_>]) -> Result<Option<String>, AllocError> {
    let lines = lines_of(alloc, block)?;
    let source = format!(in alloc; "module m\n{front}{lines}end\n")?;
    match unescaped(alloc, source.as_str()) {
        Some(bytes) => Ok(String::from_utf8(bytes).ok()),
        None => Ok(None),
    }
}

/// Each block that begins with `error` is the line on its refusal and its source's lines. Another block precedes those below
/// it.
pub fn try_refusals(
    alloc: Global,
    section: &Section<'_>,
    report: &mut Report<'_>,
    phase: Phase,
) -> Result<(), AllocError> {
    let mut front = String::new(alloc);
    for block in &section.blocks(alloc)? {
        let number = number_of(block);
        let Some((told, lines)) = told_and_lines(block) else {
            front = lines_of(alloc, block)?;
            continue;
        };
        match source_of(alloc, front.as_str(), lines)? {
            Some(source) => {
                let found = refusal_found(alloc, source.as_str(), phase);
                report.row(number, told.as_bytes(), &found)
            }
            None => report.unread(number),
        }
    }
    Ok(())
}

/// What a block that begins with `error` reports, and the lines below.
fn told_and_lines<'a, 'b>(block: &'b [Row<'a>]) -> Option<(&'a str, &'b [Row<'a>])> {
    let (first, lines) = block.split_first()?;
    let told = first.text.strip_prefix("error ")?;
    Some((told, lines))
}
