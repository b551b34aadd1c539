//! The bytes that are done for a form.

ghost use Rattle.std.specs.Prelude.{◌≡◌, ◌+◌, ◌++◌, ◌<◌, ◌≤◌, length, take, IfOk, OnOk};
ghost use Rattle.text_rewriting.specs.Prelude.{ahead};
ghost use Rattle.abel_macros.specs.Rules as spec;
ghost use Rattle.text_pieces.specs.declared.mode.Mode.TheVariants as mode;
ghost use Rattle.text_rewriting.specs.Shown.{shown_of};

use std::alloc::{AllocError, Global};
use text_pieces::{Mode, Rest};

/// The first bytes of a rest, as a text of their own.
#[tactic(auto, using(crate::proofs::SpokenSteps::part_fits))]
fn part_of<'a>(alloc: Global, rest: &Rest<'a>, count: usize) -> Result<Rest<'a>, AllocError>
    requires { count ≤ length rest.now }
    ensures { IfOk result (λ r. r ≡ take count rest.now) }
{
    rest.fits();
    let pieces = rest.ahead().until(alloc, count)?;
    let mut part = Rest::new(alloc, &[]);
    part.put_all(&pieces)?;
    Ok(part)
}

/// As many line feeds as the first bytes hold.
#[tactic(auto, using(crate::proofs::SpokenSteps::feed_next, crate::proofs::SpokenSteps::other_next, crate::proofs::SpokenSteps::feeds_out, crate::proofs::SpokenSteps::part_len))]
pub fn line_feeds(alloc: Global, rest: &Rest, count: usize) -> Result<Vec<u8>, AllocError>
    requires { count ≤ length rest.now }
    ensures bytes { IfOk result (λ w. w.items ≡ spec.line_feeds (take count rest.now)) }
    ensures few { IfOk result (λ w. length w.items ≤ count) }
{
    let part = part_of(alloc, rest, count)?;
    let mut at = part.ahead();
    let mut bytes = Vec::new(alloc);
    'bytes: while let Some(byte) = at.step() {
        if byte == b'\n' {
            bytes.push(byte)?;
        }
    }
    Ok(bytes)
}

/// Puts a byte after others, or what is done for it in a comment.
fn show_byte(bytes: &mut Vec<u8>, from: Mode, to: Mode, byte: u8) -> Result<(), AllocError>
    ensures bytes { OnOk result (bytes.new.items ≡ bytes.old.items ++ shown_of from to byte) }
    ensures few { OnOk result (length bytes.new.items ≤ length bytes.old.items + 1) }
{
    match from {
        Mode::Plain => match to {
            Mode::Note | Mode::Line => {
                bytes.push(b' ')?;
            }
            Mode::Plain | Mode::Quoted | Mode::Escaped => {
                bytes.push(byte)?;
            }
        },
        Mode::Note | Mode::Line => {
            if byte == b'\n' {
                bytes.push(byte)?;
            }
        }
        Mode::Quoted | Mode::Escaped => {
            bytes.push(byte)?;
        }
    }
    Ok(())
}

/// The first bytes with each comment as one space.
#[tactic(auto, using(crate::proofs::SpokenSteps::shown_more, crate::proofs::SpokenSteps::shown_out, crate::proofs::SpokenSteps::part_len))]
pub fn shown(alloc: Global, rest: &Rest, count: usize) -> Result<Vec<u8>, AllocError>
    requires { count ≤ length rest.now }
    ensures bytes { IfOk result (λ w. w.items ≡ spec.shown_in mode.Plain (take count rest.now)) }
    ensures few { IfOk result (λ w. length w.items ≤ count) }
{
    let part = part_of(alloc, rest, count)?;
    let mut at = part.ahead();
    let mut bytes = Vec::new(alloc);
    let mut from = Mode::Plain;
    'bytes: while let Some(byte) = at.step() {
        let to = from.passing(byte, &at);
        show_byte(&mut bytes, from, to, byte)?;
        from = to;
    }
    Ok(bytes)
}
