//! Texts in pieces, made one piece.

ghost use Rattle.std.specs.Prelude.{◌≡◌, ◌<◌, ◌≤◌, ◌^◌, length, IfOk, IfSome};
ghost use Rattle.abel_macros.specs.Prelude.{joined};

use std::alloc::{AllocError, Global};
use text_pieces::Piece;

/// How many bytes pieces have, if they are at most so many.
#[tactic(auto, using(crate::proofs::LengthsWithin::length_next, crate::proofs::LengthsWithin::length_all))]
pub fn length_within(pieces: &[Piece], most: usize) -> Option<usize>
    ensures length { IfSome result (λ n. length (joined pieces.now) ≡ n) }
    ensures within { IfSome result (λ n. n ≤ most) }
{
    let mut left = most;
    for piece in pieces {
        if piece.len() > left {
            return None;
        }
        left -= piece.len();
    }
    Some(most - left)
}

/// A text of one piece.
pub fn whole<'a>(alloc: Global, piece: Piece<'a>) -> Result<Vec<Piece<'a>>, AllocError>
    ensures { IfOk result (λ w. joined w.items ≡ piece.entry) }
{
    let mut one = Vec::new(alloc);
    one.push(piece)?;
    Ok(one)
}
