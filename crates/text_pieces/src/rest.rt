//! The rest of a text that is rewritten: a stack of pieces of texts that are there.

ghost use Rattle.std.specs.Prelude.{◌≡◌, ◌++◌, ◌+◌, ◌<◌, ◌≤◌, ◌^◌, [], ◌∷◌, IfSome, IfNone, length, take, drop, OnOk, OnErr, IfOk};
ghost use Rattle.text_pieces.specs.Stacks.{joined, stacked};

use crate::ahead::Ahead;
use crate::piece::Piece;
use std::alloc::{AllocError, Global};
use std::marker::Model;

/// A text that is kept has fewer bytes.
const LONGEST: usize = 1 << 32;

/// What is still to be read. The last piece of the stack is right after the top piece.
#[derive(Drop)]
pub struct Rest<'a> {
    top: Piece<'a>,
    stack: Vec<Piece<'a>>,
    bytes: usize,
}

impl<'a> Model for Rest<'a> {
    ghost use Rattle.std.specs.Prelude.{◌≡◌, ◌<◌, ◌^◌, ◌++◌, List, ℕ, length};
    ghost use Rattle.text_pieces.specs.Stacks.{stacked};

    ghost Value = { List ℕ };

    ghost view = { λ r. r.top ++ stacked r.stack.items };

    ghost invariant = { λ r. (r.bytes ≡ length (r.top ++ stacked r.stack.items)) × (length (r.top ++ stacked r.stack.items) < 2 ^ 63) };
}

/// Puts a piece in the place of another.
fn exchange<'a>(top: &mut Piece<'a>, piece: Piece<'a>)
    ensures { top.new ≡ piece.entry }
{
    *top = piece;
}

impl<'a> Rest<'a> {
    /// A text in one piece.
    pub fn new(alloc: Global, text: &'a [u8]) -> Rest<'a>
        requires { length text.now < 2 ^ 63 }
        ensures { result ≡ text.now }
    {
        Rest {
            top: Piece::source(text),
            stack: Vec::new(alloc),
            bytes: text.len(),
        }
    }

    pub fn len(&self) -> usize
        ensures value { result ≡ length self.now }
        ensures fits { result < 2 ^ 63 }
    {
        self.bytes
    }

    /// Its length fits a number: this does nothing, and states it.
    pub fn fits(&self)
        ensures { length self.now < 2 ^ 63 }
    {
        let _bytes = self.bytes;
    }

    /// A look at the whole of it.
    pub fn ahead<'r>(&'r self) -> Ahead<'r, 'a>
        ensures { result ≡ record { whole = self.now; passed = 0 } }
    {
        Ahead::new(&self.top, &self.stack, self.bytes)
    }

    /// The offset in the source of the byte before the first one: of the byte that was taken last.
    pub fn offset_before(&self) -> usize {
        self.top.offset_before()
    }

    /// Takes the first byte.
    pub fn take_byte(&mut self) -> Option<u8>
        ensures some { IfSome result (λ b. self.old ≡ b ∷ self.new) }
        ensures none { IfNone result ((self.old ≡ []) × (self.new ≡ [])) }
    {
        'pieces: loop {
            if let Some(byte) = self.top.first() {
                self.top.skip(1);
                self.bytes -= 1;
                return Some(byte);
            }
            match self.stack.pop() {
                Some(piece) => exchange(&mut self.top, piece),
                None => return None,
            }
        }
    }

    /// Leaves out the first bytes.
    pub fn skip(&mut self, count: usize)
        requires { count ≤ length self.old }
        ensures { self.new ≡ drop count self.old }
    {
        let mut left = count;
        'pieces: while self.top.len() < left {
            let len = self.top.len();
            left -= len;
            self.bytes -= len;
            match self.stack.pop() {
                Some(piece) => exchange(&mut self.top, piece),
                None => return,
            }
        }
        self.top.skip(left);
        self.bytes -= left;
    }

    /// Takes the first bytes out, as pieces.
    pub fn cut(&mut self, alloc: Global, count: usize) -> Result<Vec<Piece<'a>>, AllocError>
        requires { count ≤ length self.old }
        ensures ok { OnOk result (self.new ≡ drop count self.old) }
        ensures cut { IfOk result (λ w. joined w.items ≡ take count self.old) }
    {
        let mut pieces = Vec::new(alloc);
        let mut left = count;
        'pieces: while self.top.len() < left {
            let len = self.top.len();
            pieces.push(self.top.clone()?)?;
            left -= len;
            self.bytes -= len;
            match self.stack.pop() {
                Some(piece) => exchange(&mut self.top, piece),
                None => return Ok(pieces),
            }
        }
        pieces.push(self.top.part(0, left)?)?;
        self.top.skip(left);
        self.bytes -= left;
        Ok(pieces)
    }

    /// Puts a piece in front.
    fn put(&mut self, piece: Piece<'a>) -> Result<(), AllocError>
        requires { length self.old + length piece < 2 ^ 63 }
        ensures ok { OnOk result (self.new ≡ piece.entry ++ self.old) }
        ensures err { OnErr result (self.new ≡ self.old) }
    {
        if self.top.len() == 0 {
            self.bytes += piece.len();
            self.top = piece;
            return Ok(());
        }
        self.stack.push(self.top.clone()?)?;
        self.bytes += piece.len();
        self.top = piece;
        Ok(())
    }

    /// Puts a text in pieces in front.
    pub fn put_all(&mut self, pieces: &[Piece<'a>]) -> Result<(), AllocError>
        requires bytes { length self.old + length (joined pieces.now) < 2 ^ 63 }
        requires pieces { length pieces.now < 2 ^ 58 }
        ensures ok { OnOk result (self.new ≡ joined pieces.now ++ self.old) }
    {
        let mut left = pieces;
        'pieces: while let [more @ .., last] = left {
            self.put(last.clone()?)?;
            left = more;
        }
        Ok(())
    }

    /// Keeps what is known of the places of its first piece.
    pub fn keep(&mut self, alloc: Global) -> Result<(), AllocError>
        ensures { self.new ≡ self.old }
    {
        if self.top.len() < LONGEST {
            self.top = Piece::kept(alloc, &[self.top.clone()?])?;
        }
        Ok(())
    }
}
