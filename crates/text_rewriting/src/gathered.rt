//! The result of a rewriting, gathered in pieces and counted, so that nothing too long is built.

ghost use Rattle.std.specs.Prelude.{◌≡◌, ◌++◌, ◌+◌, ◌*◌, ◌<◌, ◌≤◌, ◌^◌, [], length, replicate, true, false, OnOk, IfErr};
ghost use Rattle.text_rewriting.specs.Prelude.{concat, joined};
ghost use Rattle.text_rewriting.specs.declared.gathered.Shortage.TheVariants as shortage;

use pld_base::OutOfMemory;
use std::alloc::{AllocError, AllocFailed, Global};
use std::marker::Model;
use text_pieces::Piece;

/// Why a text isn't gathered.
#[derive(Clone, Copy)]
pub enum Shortage {
    /// It would have too many bytes.
    TooLong,
    /// Memory ran out.
    OutOfMemory,
}

/// A text in pieces that may have so many bytes more.
#[derive(Drop)]
pub struct Gathered<'a> {
    pieces: Vec<Piece<'a>>,
    room: usize,
}

impl<'a> Model for Gathered<'a> {
    ghost use Rattle.std.specs.Prelude.{◌+◌, length};
    ghost use Rattle.text_pieces.specs.Stacks.{joined};
    ghost use Rattle.text_rewriting.specs.Gathering.{Gathering};

    ghost Value = { Gathering };

    ghost view = { λ g. record { text = joined g.pieces.items; most = length (joined g.pieces.items) + g.room } };
}

/// Whether a text in pieces has no bytes.
#[tactic(auto, using(crate::proofs::Gathers::nothing_next, crate::proofs::Gathers::something_at, crate::proofs::Gathers::nothing_left))]
fn is_nothing(pieces: &[Piece]) -> bool
    ensures yes { result ≡ true → joined pieces.now ≡ [] }
    ensures no { result ≡ false → 0 < length (joined pieces.now) }
{
    for piece in pieces {
        if piece.len() > 0 {
            return false;
        }
    }
    true
}

/// Whether a length so many times is more than there is room.
#[tactic(auto, using(crate::proofs::Gathers::product_over))]
fn is_over(count: u32, length: usize, room: usize) -> bool
    ensures { result ≡ true → room < count * length }
{
    length > 0 && room / length < count as usize
}

impl<'a> Gathered<'a> {
    /// Nothing, that may get so many bytes.
    pub fn new(alloc: Global, most: usize) -> Gathered<'a>
        ensures { result ≡ record { text = []; most = most } }
    {
        Gathered {
            pieces: Vec::new(alloc),
            room: most,
        }
    }

    /// The pieces that were gathered.
    pub fn pieces(&self) -> &[Piece<'a>]
        ensures text { joined result.now ≡ self.now.text }
        ensures within { length (joined result.now) ≤ self.now.most }
        ensures few { length result.now < 2 ^ 58 }
    {
        self.pieces.as_slice()
    }

    /// Puts other pieces of the same text in the place of those that were gathered.
    #[tactic(auto, using(crate::proofs::Gathers::same_gathering))]
    pub fn stand_in(&mut self, pieces: Vec<Piece<'a>>)
        requires { joined pieces.items ≡ self.old.text }
        ensures { self.new ≡ self.old }
    {
        self.pieces = pieces;
    }

    /// It has no more bytes than it may have: this does nothing, and states it.
    pub fn is_within(&self)
        ensures { length self.now.text ≤ self.now.most }
    {
        let _room = self.room;
    }

    /// Adds a piece at the end.
    #[tactic(auto, using(crate::proofs::Gathers::added, crate::proofs::Gathers::added_nothing, crate::proofs::Gathers::over))]
    pub fn add(&mut self, piece: Piece<'a>) -> Result<(), Shortage>
        ensures ok { OnOk result (self.new ≡ record self.old { text = self.old.text ++ piece.entry }) }
        ensures long { IfErr result (λ e. e ≡ shortage.TooLong → self.old.most < length (self.old.text ++ piece.entry)) }
    {
        let length = piece.len();
        if length == 0 {
            return Ok(());
        }
        if length > self.room {
            return Err(Shortage::TooLong);
        }
        self.pieces.push(piece)?;
        self.room -= length;
        Ok(())
    }

    /// Adds a text in pieces at the end.
    #[tactic(auto, using(crate::proofs::Gathers::all_next, crate::proofs::Gathers::all_long, crate::proofs::Gathers::all_added))]
    pub fn add_all(&mut self, pieces: &[Piece<'a>]) -> Result<(), Shortage>
        ensures ok { OnOk result (self.new ≡ record self.old { text = self.old.text ++ joined pieces.now }) }
        ensures long { IfErr result (λ e. e ≡ shortage.TooLong → self.old.most < length (self.old.text ++ joined pieces.now)) }
    {
        for piece in pieces {
            self.add(piece.clone()?)?;
        }
        Ok(())
    }

    /// How many bytes more it may get.
    fn room(&self) -> usize
        ensures { length self.now.text + result ≡ self.now.most }
    {
        self.room
    }

    /// Adds a text in pieces at the end, so many times.
    #[tactic(auto, using(crate::proofs::Gathers::times_next, crate::proofs::Gathers::times_long, crate::proofs::Gathers::times_added))]
    fn add_times(&mut self, pieces: &[Piece<'a>], count: u32) -> Result<(), Shortage>
        ensures ok { OnOk result (self.new ≡ record self.old { text = self.old.text ++ concat (replicate count (joined pieces.now)) }) }
        ensures long { IfErr result (λ e. e ≡ shortage.TooLong → self.old.most < length (self.old.text ++ concat (replicate count (joined pieces.now)))) }
    {
        let mut left = count;
        'times: while left > 0 {
            self.add_all(pieces)?;
            left -= 1;
        }
        Ok(())
    }

    /// Adds a text in pieces at the end, once and so many times more; if that would be too long, only
    /// once.
    #[tactic(auto, using(crate::proofs::Gathers::once_long, crate::proofs::Gathers::times_over, crate::proofs::Gathers::rest_added, crate::proofs::Gathers::rest_long, crate::proofs::Gathers::less_room))]
    fn add_some(&mut self, pieces: &[Piece<'a>], count: u32) -> Result<(), Shortage>
        requires { 0 < count }
        ensures ok { OnOk result (self.new ≡ record self.old { text = self.old.text ++ concat (replicate count (joined pieces.now)) }) }
        ensures long { IfErr result (λ e. e ≡ shortage.TooLong → self.old.most < length (self.old.text ++ concat (replicate count (joined pieces.now)))) }
    {
        let before = self.room();
        self.add_all(pieces)?;
        let room = self.room();
        if is_over(count - 1, before - room, room) {
            return Err(Shortage::TooLong);
        }
        self.add_times(pieces, count - 1)
    }

    /// Adds a text in pieces at the end, so many times.
    #[tactic(auto, using(crate::proofs::Gathers::no_times, crate::proofs::Gathers::zero_times))]
    pub fn repeat(&mut self, pieces: &[Piece<'a>], count: u32) -> Result<(), Shortage>
        ensures ok { OnOk result (self.new ≡ record self.old { text = self.old.text ++ concat (replicate count (joined pieces.now)) }) }
        ensures long { IfErr result (λ e. e ≡ shortage.TooLong → self.old.most < length (self.old.text ++ concat (replicate count (joined pieces.now)))) }
    {
        if count == 0 {
            return Ok(());
        }
        if is_nothing(pieces) {
            return Ok(());
        }
        self.add_some(pieces, count)
    }
}

impl<T: Drop> From<AllocFailed<T>> for Shortage {
    ghost use Rattle.std.specs.Prelude.{◌≡◌};
    ghost use Rattle.text_rewriting.specs.declared.gathered.Shortage.TheVariants as shortage;

    ghost from_gives = { λ _ e. e ≡ shortage.OutOfMemory };

    fn from(_error: AllocFailed<T>) -> Shortage {
        Shortage::OutOfMemory
    }
}

impl From<AllocError> for Shortage {
    ghost use Rattle.std.specs.Prelude.{◌≡◌};
    ghost use Rattle.text_rewriting.specs.declared.gathered.Shortage.TheVariants as shortage;

    ghost from_gives = { λ _ e. e ≡ shortage.OutOfMemory };

    fn from(_error: AllocError) -> Shortage {
        Shortage::OutOfMemory
    }
}

impl From<OutOfMemory> for Shortage {
    ghost use Rattle.std.specs.Prelude.{◌≡◌};
    ghost use Rattle.text_rewriting.specs.declared.gathered.Shortage.TheVariants as shortage;

    ghost from_gives = { λ _ e. e ≡ shortage.OutOfMemory };

    fn from(_error: OutOfMemory) -> Shortage {
        Shortage::OutOfMemory
    }
}
