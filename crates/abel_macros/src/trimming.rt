//! Bytes ahead without the blanks at their ends.

ghost use Rattle.std.specs.Prelude.{◌≡◌, ◌≤◌, length, take, IfOk, OnOk};
ghost use Rattle.abel_macros.specs.Prelude.{prefix_len, ahead, joined, is_blank};
ghost use Rattle.abel_macros.specs.Forms as spec;

use abel_lexer::is_blank;
use std::alloc::{AllocError, Global};
use text_pieces::{Ahead, Piece};

/// How many blanks the next bytes begin with.
#[tactic(auto, using(crate::proofs::Trims::take_some))]
fn blank_len(at: &Ahead, count: usize) -> usize
    requires { count ≤ length (ahead at.now) }
    ensures value { result ≡ prefix_len is_blank (take count (ahead at.now)) }
    ensures within { result ≤ count }
{
    let mut look = at.fork();
    let mut blanks = 0;
    'bytes: while blanks < count {
        let Some(byte) = look.step() else {
            return blanks;
        };
        if !is_blank(byte) {
            return blanks;
        }
        blanks += 1;
    }
    blanks
}

/// How long a piece is without the blanks at its end.
fn trimmed_len(piece: &[u8]) -> usize
    ensures value { take result piece.now ≡ spec.trimmed_end piece.now }
    ensures within { result ≤ length piece.now }
{
    let mut left = piece;
    'bytes: while let [more @ .., last] = left {
        if !is_blank(*last) {
            return left.len();
        }
        left = more;
    }
    0
}

/// Takes the blanks from the end of a text in pieces; only the pieces at its end are read.
fn trim_end<'a>(pieces: &mut Vec<Piece<'a>>) -> Result<(), AllocError>
    ensures { OnOk result (joined pieces.new.items ≡ spec.trimmed_end (joined pieces.old.items)) }
{
    'pieces: while let Some(last) = pieces.pop() {
        let count = trimmed_len(last.bytes());
        if count > 0 {
            let dark = last.part(0, count)?;
            pieces.push(dark)?;
            return Ok(());
        }
    }
    Ok(())
}

/// The next bytes without the blanks at both ends.
#[tactic(auto, using(crate::proofs::Trims::both_trimmed))]
pub fn trimmed<'a>(
    alloc: Global,
    at: &Ahead<'_, 'a>,
    count: usize,
) -> Result<Vec<Piece<'a>>, AllocError>
    requires { count ≤ length (ahead at.now) }
    ensures { IfOk result (λ w. joined w.items ≡ spec.trimmed (take count (ahead at.now))) }
{
    let blanks = blank_len(at, count);
    let mut look = at.fork();
    look.skip(blanks);
    let mut pieces = look.until(alloc, count - blanks)?;
    trim_end(&mut pieces)?;
    Ok(pieces)
}
