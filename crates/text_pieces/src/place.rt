//! A place in a text in pieces.

ghost use Rattle.std.specs.Prelude.{◌≡◌, ◌<◌, ◌≤◌, ◌^◌, ◌++◌, length, take, drop, IfOk, IfSome, true, false};
ghost use Rattle.text_pieces.specs.Known.{ClosesAt, EndsAt, FreeOf};
ghost use Rattle.text_pieces.specs.Places.{at_of, text_at, IsPlace, IsSettled};
ghost use Rattle.text_pieces.specs.Stacks.{joined, stacked};
ghost use Rattle.text_pieces.specs.Stops.{is_stop};

use crate::piece::Piece;
use crate::stop::Stop;
use std::alloc::{AllocError, Global};

/// A place in a piece. `front` is what is left of it, and after that are the pieces below, the last one first.
#[derive(Clone, Copy)]
pub struct Place<'r, 'a> {
    pub here: &'r Piece<'a>,
    pub front: &'r [u8],
    pub below: &'r [Piece<'a>],
}

impl<'r, 'a> Place<'r, 'a> {
    /// The front of a piece.
    pub fn new(here: &'r Piece<'a>, below: &'r [Piece<'a>]) -> Place<'r, 'a>
        requires { length below.now < 2 ^ 58 }
        ensures text { text_at result ≡ here.now ++ stacked below.now }
        ensures is { IsPlace result }
        ensures front { result.front.now ≡ here.now }
        ensures below { result.below.now ≡ below.now }
    {
        Place {
            here,
            front: here.bytes(),
            below,
        }
    }

    /// How many bytes of its piece were passed.
    fn at(self) -> usize
        requires { IsPlace self }
        ensures { result ≡ at_of self.entry }
    {
        self.here.len() - self.front.len()
    }

    /// Whether nothing is left of its piece and others are below it.
    fn is_passed(self) -> bool
        ensures yes { result ≡ true → (length self.entry.front.now ≡ 0) × (0 < length self.entry.below.now) }
        ensures no { result ≡ false → IsSettled self.entry }
    {
        self.front.is_empty() && !self.below.is_empty()
    }

    /// The same text, from a piece on of which something is left if the text goes on.
    pub fn settled(self) -> Place<'r, 'a>
        requires { IsPlace self }
        ensures text { text_at result ≡ text_at self.entry }
        ensures is { IsPlace result }
        ensures settled { IsSettled result }
    {
        let mut place = self;
        'pieces: while place.is_passed() {
            let [more @ .., last] = place.below else {
                unreachable!();
            };
            place = Place::new(last, more);
        }
        place
    }

    /// The place after so many bytes.
    pub fn behind(self, count: usize) -> Place<'r, 'a>
        requires is { IsPlace self }
        requires within { count ≤ length (text_at self) }
        ensures text { text_at result ≡ drop count (text_at self.entry) }
        ensures is { IsPlace result }
        ensures settled { IsSettled result }
    {
        let mut place = self;
        let mut left = count;
        'pieces: while place.front.len() < left {
            left -= place.front.len();
            let [more @ .., last] = place.below else {
                unreachable!();
            };
            place = Place::new(last, more);
        }
        let (_passed, front) = place.front.split_at(left);
        place.front = front;
        place.settled()
    }

    /// So many bytes from it on, as pieces.
    pub fn pieces(self, alloc: Global, count: usize) -> Result<Vec<Piece<'a>>, AllocError>
        requires is { IsPlace self }
        requires within { count ≤ length (text_at self) }
        ensures { IfOk result (λ w. joined w.items ≡ take count (text_at self.entry)) }
    {
        let mut pieces = Vec::new(alloc);
        let mut place = self;
        let mut left = count;
        'pieces: while place.front.len() < left {
            let len = place.front.len();
            pieces.push(place.here.part(place.at(), len)?)?;
            left -= len;
            let [more @ .., last] = place.below else {
                unreachable!();
            };
            place = Place::new(last, more);
        }
        if left == 0 {
            return Ok(pieces);
        }
        pieces.push(place.here.part(place.at(), left)?)?;
        Ok(pieces)
    }

    /// How many bytes precede the brace that closes the block whose text begins here, if that is known.
    pub fn block_len(self) -> Option<usize>
        requires { IsPlace self }
        ensures closes { IfSome result (λ n. ClosesAt self.entry.front.now 0 n) }
        ensures within { IfSome result (λ n. n < length self.entry.front.now) }
    {
        self.here.block_len(self.at())
    }

    /// How many bytes the argument has that begins here, if that is known.
    pub fn argument_len(self) -> Option<usize>
        requires { IsPlace self }
        ensures ends { IfSome result (λ n. EndsAt self.entry.front.now 0 n) }
        ensures within { IfSome result (λ n. n < length self.entry.front.now) }
    {
        self.here.argument_len(self.at())
    }

    /// So many bytes from here on are no stops.
    pub fn free_len(self, stop: Stop) -> usize
        requires { IsPlace self }
        ensures { FreeOf (is_stop stop) self.entry.front.now 0 result }
    {
        self.here.free_len(stop, self.at())
    }
}
