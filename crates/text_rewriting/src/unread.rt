//! What is still to be read, and a gap in it that needn't be read again.

ghost use Rattle.std.specs.Prelude.{◌≡◌, ◌++◌, ◌+◌, ◌<◌, ◌≤◌, ◌^◌, [], ◌∷◌, length, drop, true, false, Some, None, IfOk, IfSome, IfNone, OnOk};
ghost use Rattle.text_rewriting.specs.Prelude.{ahead, joined, word, macro_word};
ghost use Rattle.text_rewriting.specs.Marks.{last, DefinesNone};

use abel_macros::{skip_gap_to, skip_macro_word, word_len};
use std::alloc::{AllocError, Global};
use std::marker::Model;
use text_pieces::{Ahead, Piece, Rest};

/// What is still to be read. At the beginning of the last `left` bytes are blanks and comments that
/// lead to no word MACRO; they have `gap` bytes, or there aren't any.
#[derive(Drop)]
pub struct Unread<'a> {
    rest: Rest<'a>,
    left: usize,
    gap: usize,
}

impl<'a> Model for Unread<'a> {
    ghost use Rattle.std.specs.Prelude.{◌≡◌, ◌≤◌, List, ℕ, None, length};
    ghost use Rattle.abel_macros.specs.Rules.{macro_word};
    ghost use Rattle.text_rewriting.specs.Marks.{last};

    ghost Value = { List ℕ };

    ghost view = { λ u. u.rest };

    ghost invariant = { λ u. (u.left ≤ length u.rest) × (macro_word (last u.left u.rest) ≡ None) };
}

/// Whether the word MACRO follows blanks and comments; it follows none that begin where so many bytes
/// are left.
#[tactic(auto, using(crate::proofs::Marks::none_stopped, crate::proofs::Marks::none_passed))]
fn has_macro_word(alloc: Global, at: &mut Ahead, left: usize) -> Result<bool, AllocError>
    requires { macro_word (last left at.old.whole) ≡ None }
    ensures no { IfOk result (λ o. o ≡ false → macro_word (ahead at.old) ≡ None) }
    ensures whole { at.new.whole ≡ at.old.whole }
{
    if skip_gap_to(at, left) {
        return Ok(false);
    }
    skip_macro_word(alloc, at)
}

impl<'a> Unread<'a> {
    /// A text in one piece. It takes no memory.
    #[tactic(auto, using(crate::proofs::Marks::none_at_end))]
    pub fn new(alloc: Global, text: &'a [u8]) -> Unread<'a>
        requires { length text.now < 2 ^ 63 }
        ensures { result ≡ text.now }
    {
        Unread {
            rest: Rest::new(alloc, text),
            left: 0,
            gap: 0,
        }
    }

    /// Keeps what is known of the places of its first piece.
    pub fn keep_text(&mut self, alloc: Global) -> Result<(), AllocError>
        ensures { self.new ≡ self.old }
    {
        self.rest.keep(alloc)
    }

    /// Its bytes.
    pub fn rest(&self) -> &Rest<'a>
        ensures { result.now ≡ self.now }
    {
        &self.rest
    }

    /// Takes the first byte.
    #[tactic(auto, using(crate::proofs::Marks::none_at_end, crate::proofs::Marks::none_next))]
    pub fn take_byte(&mut self) -> Option<u8>
        ensures some { IfSome result (λ b. self.old ≡ b ∷ self.new) }
        ensures none { IfNone result ((self.old ≡ []) × (self.new ≡ [])) }
    {
        let byte = self.rest.take_byte()?;
        if self.left > self.rest.len() {
            self.left = 0;
            self.gap = 0;
        }
        Some(byte)
    }

    /// Leaves out the first bytes.
    #[tactic(auto, using(crate::proofs::Marks::none_at_end, crate::proofs::Marks::none_behind))]
    pub fn skip(&mut self, count: usize)
        requires { count ≤ length self.old }
        ensures { self.new ≡ drop count self.old }
    {
        self.rest.skip(count);
        if self.left > self.rest.len() {
            self.left = 0;
            self.gap = 0;
        }
    }

    /// Puts a text in pieces in front.
    #[tactic(auto, using(crate::proofs::Marks::none_at_end, crate::proofs::Marks::none_before))]
    pub fn put_all(&mut self, pieces: &[Piece<'a>]) -> Result<(), AllocError>
        requires bytes { length self.old + length (joined pieces.now) < 2 ^ 63 }
        requires pieces { length pieces.now < 2 ^ 58 }
        ensures ok { OnOk result (self.new ≡ joined pieces.now ++ self.old) }
    {
        let left = self.left;
        self.left = 0;
        self.rest.put_all(pieces)?;
        self.left = left;
        Ok(())
    }

    /// Keeps the blanks and comments from one place to another, by the bytes left at them, if they are
    /// more than those that were kept. They lead to no word MACRO.
    fn keep(&mut self, start: usize, end: usize)
        requires within { start ≤ length self.old }
        requires none { macro_word (last start self.old) ≡ None }
        ensures { self.new ≡ self.old }
    {
        let known = if end == self.left { self.gap } else { 0 };
        let gap = start.saturating_sub(end).saturating_add(known);
        if gap >= self.gap {
            self.left = start;
            self.gap = gap;
        }
    }

    /// Whether a definition begins in front: a name, and the word MACRO after it.
    #[tactic(auto, using(crate::proofs::Marks::at_last))]
    pub fn may_define(&mut self, alloc: Global) -> Result<bool, AllocError>
        ensures no { IfOk result (λ o. o ≡ false → DefinesNone self.old) }
        ensures same { self.new ≡ self.old }
    {
        let mut at = self.rest.ahead();
        let count = word_len(&at);
        if count == 0 {
            return Ok(false);
        }
        at.skip(count);
        let start = at.left();
        let found = has_macro_word(alloc, &mut at, self.left)?;
        let end = at.left();
        if !found {
            self.keep(start, end);
        }
        Ok(found)
    }
}
