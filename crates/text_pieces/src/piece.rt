//! A piece of a text, which knows its place in the source.

ghost use Rattle.std.specs.Prelude.{◌≡◌, ◌+◌, ◌-◌, ◌<◌, ◌≤◌, ◌^◌, ◌++◌, [], ◌∷◌, length, take, drop, IfNone, IfOk, OnOk, IfSome};
ghost use Rattle.text_pieces.specs.Homes.{home_bytes};
ghost use Rattle.text_pieces.specs.Known.{ClosesAt, EndsAt, FreeOf};
ghost use Rattle.text_pieces.specs.Stacks.{joined};
ghost use Rattle.text_pieces.specs.Stops.{is_stop};

use crate::home::Home;
use crate::stop::Stop;
use crate::text::{NOWHERE, Text};
use crate::watch::Watch;
use std::alloc::{AllocError, Global};
use std::marker::Model;
use std::rc::Rc;

/// Bytes of a text. No contract rests on their places in the source: who reads that looks whether the source has the byte
/// there.
#[derive(Drop)]
pub struct Piece<'a> {
    home: Home<'a>,
    from: usize,
    to: usize,
}

impl<'a> Model for Piece<'a> {
    ghost use Rattle.std.specs.Prelude.{◌≤◌, ◌<◌, ◌^◌, ◌-◌, List, ℕ, length, take, drop};

    ghost Value = { List ℕ };

    ghost use Rattle.text_pieces.specs.Homes.{home_bytes};

    ghost view = { λ p. take (p.to - p.from) (drop p.from (home_bytes p.home)) };

    ghost invariant = { λ p. (p.from ≤ p.to) × (p.to ≤ length (home_bytes p.home)) × (p.to < 2 ^ 64) };
}

impl<'a> Piece<'a> {
    /// A whole source.
    pub fn source(bytes: &'a [u8]) -> Piece<'a>
        ensures { result ≡ bytes.now }
    {
        Piece {
            home: Home::Lent(bytes, 0),
            from: 0,
            to: bytes.len(),
        }
    }

    /// Bytes that are nowhere in the source.
    pub fn computed(bytes: &'a [u8]) -> Piece<'a>
        ensures { result ≡ bytes.now }
    {
        Piece {
            home: Home::Lent(bytes, usize::MAX),
            from: 0,
            to: bytes.len(),
        }
    }

    /// One piece of all these bytes, of a text that is kept.
    pub fn kept(alloc: Global, pieces: &[Piece<'a>]) -> Result<Piece<'a>, AllocError>
        requires { length (joined pieces.now) < 2 ^ 32 }
        ensures { IfOk result (λ p. p ≡ joined pieces.now) }
    {
        let mut bytes = Vec::new(alloc);
        let mut offsets = Vec::new(alloc);
        'pieces: for piece in pieces {
            piece.add_to(&mut bytes, &mut offsets)?;
        }
        let to = bytes.len();
        let text = Rc::new(alloc, Text::new(alloc, bytes, offsets)?)?;
        Ok(Piece {
            home: Home::Kept(text),
            from: 0,
            to,
        })
    }

    /// Adds its bytes, and their places in the source.
    fn add_to(&self, bytes: &mut Vec<u8>, offsets: &mut Vec<u32>) -> Result<(), AllocError>
        ensures { OnOk result (bytes.new.items ≡ bytes.old.items ++ self.now) }
    {
        bytes.extend_from_slice(self.bytes())?;
        let mut place = self.from;
        'offsets: while place < self.to {
            match u32::try_from(self.home.offset(place)) {
                Ok(offset) => offsets.push(offset)?,
                Err(_) => offsets.push(NOWHERE)?,
            }
            place += 1;
        }
        Ok(())
    }

    /// A watch over the text that it is of, if that is kept.
    pub fn watch(&self) -> Result<Option<Watch>, AllocError> {
        self.home.watch()
    }

    pub fn len(&self) -> usize
        ensures { result ≡ length self.now }
    {
        self.to - self.from
    }

    pub fn bytes(&self) -> &[u8]
        ensures { result.now ≡ self.now }
    {
        let (front, _behind) = self.home.bytes().split_at(self.to);
        let (_passed, bytes) = front.split_at(self.from);
        bytes
    }

    /// The place of the byte before its first one in the source.
    pub fn offset_before(&self) -> usize {
        match self.from.checked_sub(1) {
            Some(place) => self.home.offset(place),
            None => self.home.offset(0).wrapping_sub(1),
        }
    }

    /// Its first byte.
    pub fn first(&self) -> Option<u8>
        ensures some { IfSome result (λ b. self.now ≡ b ∷ drop 1 self.now) }
        ensures none { IfNone result (self.now ≡ []) }
    {
        match self.bytes() {
            [first, ..] => Some(*first),
            [] => None,
        }
    }

    /// So many of its bytes, from one on.
    pub fn part(&self, from: usize, count: usize) -> Result<Piece<'a>, AllocError>
        requires { from + count ≤ length self.now }
        ensures { IfOk result (λ p. p ≡ take count (drop from self.now)) }
    {
        let from = self.from + from;
        Ok(Piece {
            home: self.home.shared()?,
            from,
            to: from + count,
        })
    }

    /// Leaves out its first bytes.
    pub fn skip(&mut self, count: usize)
        requires { count ≤ length self.old }
        ensures { self.new ≡ drop count self.old }
    {
        self.from += count;
    }

    /// How many bytes precede the brace that closes the block that begins at one of its bytes, if that is known.
    pub fn block_len(&self, at: usize) -> Option<usize>
        requires { at ≤ length self.now }
        ensures closes { IfSome result (λ n. ClosesAt (drop at self.now) 0 n) }
        ensures within { IfSome result (λ n. n < length (drop at self.now)) }
    {
        let place = self.from + at;
        let end = self.home.block_end(place)?;
        if end < place || end >= self.to {
            return None;
        }
        Some(end - place)
    }

    /// How many bytes the argument has that begins at one of its bytes, if that is known.
    pub fn argument_len(&self, at: usize) -> Option<usize>
        requires { at ≤ length self.now }
        ensures ends { IfSome result (λ n. EndsAt (drop at self.now) 0 n) }
        ensures within { IfSome result (λ n. n < length (drop at self.now)) }
    {
        let place = self.from + at;
        let end = self.home.argument_end(place)?;
        if end < place || end >= self.to {
            return None;
        }
        Some(end - place)
    }

    /// So many bytes from one of them on are no stops.
    pub fn free_len(&self, stop: Stop, at: usize) -> usize
        requires { at ≤ length self.now }
        ensures { FreeOf (is_stop stop) (drop at self.now) 0 result }
    {
        let place = self.from + at;
        let end = self.home.stop(stop, place).min(self.to);
        end.saturating_sub(place)
    }
}

impl<'a> Clone for Piece<'a> {
    ghost is_clone = { λ piece copy. copy ≡ piece };

    fn clone(&self) -> Result<Piece<'a>, AllocError> {
        Ok(Piece {
            home: self.home.shared()?,
            from: self.from,
            to: self.to,
        })
    }
}
