//! A look ahead at a text in pieces, byte by byte.

ghost use Rattle.std.specs.Prelude.{◌≡◌, ◌==◌, ◌||◌, ℕ, ◌+◌, ◌<◌, ◌≤◌, ◌^◌, List, [], ◌∷◌, ◌++◌, length, take, drop, IfOk, IfSome, IfNone, Some};
ghost use Rattle.std.specs.List.{count_by};
ghost use Rattle.text_pieces.specs.Brackets.{closing, argument_end};
ghost use Rattle.text_pieces.specs.Stacks.{ahead, joined, rest_of, stacked};
ghost use Rattle.text_pieces.specs.declared.mode.Mode.TheVariants as mode;

use crate::piece::Piece;
use crate::place::Place;
use crate::stop::Stop;
use std::alloc::{AllocError, Global};
use std::marker::Model;

/// A place in a text in pieces, from which it is looked at.
#[derive(Drop)]
pub struct Ahead<'r, 'a> {
    top: &'r Piece<'a>,
    stack: &'r [Piece<'a>],
    place: Place<'r, 'a>,
    bytes: usize,
    passed: usize,
}

impl<'r, 'a> Model for Ahead<'r, 'a> {
    ghost use Rattle.std.specs.Prelude.{◌≡◌, ◌≤◌, ◌++◌, ◌<◌, ◌^◌, length, drop};
    ghost use Rattle.text_pieces.specs.Stacks.{Look, stacked};
    ghost use Rattle.text_pieces.specs.Places.{text_at, IsPlace, IsSettled};

    ghost Value = { Look };

    ghost view = { λ a. record { whole = a.top.now ++ stacked a.stack.now; passed = a.passed } };

    ghost invariant = { λ a. (text_at a.place ≡ drop a.passed (a.top.now ++ stacked a.stack.now)) × (a.passed ≤ length (a.top.now ++ stacked a.stack.now)) × IsSettled a.place × IsPlace a.place × (length (a.top.now ++ stacked a.stack.now) < 2 ^ 63) × (a.bytes ≡ length (a.top.now ++ stacked a.stack.now)) };
}

impl<'r, 'a> Ahead<'r, 'a> {
    /// A look at a whole text of so many bytes: this piece, and then those of the stack, the last one
    /// first.
    pub fn new(top: &'r Piece<'a>, stack: &'r [Piece<'a>], bytes: usize) -> Ahead<'r, 'a>
        requires pieces { length stack.now < 2 ^ 58 }
        requires bytes { bytes ≡ length (top.now ++ stacked stack.now) }
        requires fits { bytes < 2 ^ 63 }
        ensures whole { result.whole ≡ top.now ++ stacked stack.now }
        ensures passed { result.passed ≡ 0 }
    {
        Ahead {
            top,
            stack,
            place: Place::new(top, stack).settled(),
            bytes,
            passed: 0,
        }
    }

    /// Another look from the same place.
    pub fn fork(&self) -> Ahead<'r, 'a>
        ensures { result ≡ self.now }
    {
        Ahead {
            top: self.top,
            stack: self.stack,
            place: self.place,
            bytes: self.bytes,
            passed: self.passed,
        }
    }

    /// How many bytes were passed.
    pub fn passed(&self) -> usize
        ensures value { result ≡ self.now.passed }
        ensures within { result ≤ length self.now.whole }
    {
        self.passed
    }

    /// How many bytes are ahead.
    #[tactic(auto, using(crate::proofs::Stacked::drop_length))]
    pub fn left(&self) -> usize
        ensures { result ≡ length (ahead self.now) }
    {
        self.bytes - self.passed
    }

    /// What is ahead fits a number: this does nothing, and states it.
    #[tactic(auto, using(crate::proofs::Stacked::drop_fits))]
    pub fn fits(&self)
        ensures { length (ahead self.now) < 2 ^ 63 }
    {
        let _passed = self.passed;
    }

    /// The next bytes, as far as they are in one piece.
    pub fn front(&self) -> &'r [u8]
        ensures text { take (length result.now) (ahead self.now) ≡ result.now }
        ensures within { length result.now ≤ length (ahead self.now) }
    {
        self.place.front
    }

    /// The next byte, which stays ahead.
    pub fn peek(&self) -> Option<u8>
        ensures some { IfSome result (λ b. (bs : List ℕ) × (ahead self.now ≡ b ∷ bs)) }
        ensures none { IfNone result (ahead self.now ≡ []) }
    {
        match self.place.front {
            [first, ..] => Some(*first),
            [] => None,
        }
    }

    /// The byte after the next one.
    pub fn peek_second(&self) -> Option<u8>
        ensures some { IfSome result (λ b. (a : ℕ) × (bs : List ℕ) × (ahead self.now ≡ a ∷ b ∷ bs)) }
        ensures none { IfNone result (rest_of (ahead self.now) ≡ []) }
    {
        match self.place.front {
            [_, second, ..] => Some(*second),
            [_] => match self.place.behind(1).front {
                [first, ..] => Some(*first),
                [] => None,
            },
            [] => None,
        }
    }

    /// Passes the next byte, and answers it.
    pub fn step(&mut self) -> Option<u8>
        ensures some { IfSome result (λ b. ahead self.old ≡ b ∷ ahead self.new) }
        ensures none { IfNone result (ahead self.old ≡ []) }
        ensures whole { self.new.whole ≡ self.old.whole }
        ensures passed { IfSome result (λ b. self.new.passed ≡ self.old.passed + 1) }
        ensures same { IfNone result (self.new ≡ self.old) }
    {
        match self.place.front {
            [first, ..] => {
                self.place = self.place.behind(1);
                self.passed += 1;
                Some(*first)
            }
            [] => None,
        }
    }

    /// The next bytes, as pieces.
    pub fn until(&self, alloc: Global, count: usize) -> Result<Vec<Piece<'a>>, AllocError>
        requires { count ≤ length (ahead self.now) }
        ensures { IfOk result (λ w. joined w.items ≡ take count (ahead self.now)) }
    {
        self.place.pieces(alloc, count)
    }

    /// Passes the next bytes.
    pub fn skip(&mut self, count: usize)
        requires { count ≤ length (ahead self.old) }
        ensures ahead { ahead self.new ≡ drop count (ahead self.old) }
        ensures whole { self.new.whole ≡ self.old.whole }
        ensures passed { self.new.passed ≡ self.old.passed + count }
    {
        self.place = self.place.behind(count);
        self.passed += count;
    }

    /// How many bytes precede the brace that closes the block whose text begins here, if that is known.
    pub fn block_len(&self) -> Option<usize>
        ensures closes { IfSome result (λ n. closing 0 mode.Plain (ahead self.now) ≡ Some (drop n (ahead self.now))) }
        ensures within { IfSome result (λ n. n ≤ length (ahead self.now)) }
    {
        self.place.block_len()
    }

    /// How many bytes the argument has that begins here, if that is known.
    pub fn argument_len(&self) -> Option<usize>
        ensures ends { IfSome result (λ n. argument_end 0 0 mode.Plain (ahead self.now) ≡ Some (drop n (ahead self.now))) }
        ensures within { IfSome result (λ n. n ≤ length (ahead self.now)) }
    {
        self.place.argument_len()
    }

    /// So many of the next bytes are no question marks.
    pub fn unmarked_len(&self) -> usize
        ensures none { count_by (λ b. b == 63) (take result (ahead self.now)) ≡ 0 }
        ensures within { result ≤ length (ahead self.now) }
    {
        self.place.free_len(Stop::Question)
    }

    /// So many of the next bytes neither end an argument nor nest anything in it.
    pub fn unbracketed_len(&self) -> usize
        ensures none { count_by (λ b. b == 39 || b == 40 || b == 41 || b == 44 || b == 91 || b == 93) (take result (ahead self.now)) ≡ 0 }
        ensures within { result ≤ length (ahead self.now) }
    {
        self.place.free_len(Stop::Argument)
    }
}
