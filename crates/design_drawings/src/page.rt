//! A page as it is written.

ghost use Rattle.std.specs.Prelude.{◌≡◌, ◌++◌, [], OnOk};
ghost use Rattle.design_drawings.specs.Pieces.{shown, all_shown};

use crate::escaping::put_escaped;
use pld_base::{OutOfMemory, put_decimal};
use std::alloc::Global;
use std::marker::Model;

/// A piece of a page.
#[derive(Clone, Copy)]
pub enum Piece<'a> {
    /// Markup of the program's own, which is in the page as it is: no byte of a source or a file lives so long.
    Markup(&'static str),
    /// Bytes of a source or of a file.
    Text(&'a [u8]),
    /// A number, in decimal.
    Number(usize),
}

/// A page as far as it is written.
#[derive(Drop)]
pub struct Page {
    alloc: Global,
    bytes: Vec<u8>,
}

impl Model for Page {
    ghost use Rattle.std.specs.Prelude.{List, ℕ};

    ghost Value = { List ℕ };

    ghost view = { λ p. p.bytes.items };
}

impl Page {
    /// A page with nothing written. Takes no memory.
    pub fn new(alloc: Global) -> Page
        ensures { result ≡ [] }
    {
        Page {
            alloc,
            bytes: Vec::new(alloc),
        }
    }

    /// Writes a piece.
    fn put_piece(&mut self, piece: Piece) -> Result<(), OutOfMemory>
        ensures { OnOk result (self.new ≡ self.old ++ shown piece.entry) }
    {
        match piece {
            Piece::Markup(markup) => {
                self.bytes.extend_from_slice(markup.as_bytes())?;
                Ok(())
            }
            Piece::Text(bytes) => put_escaped(self.alloc, &mut self.bytes, bytes),
            Piece::Number(number) => put_decimal(self.alloc, &mut self.bytes, number),
        }
    }

    /// Writes pieces, one after the other.
    pub fn put(&mut self, pieces: &[Piece]) -> Result<(), OutOfMemory>
        ensures { OnOk result (self.new ≡ self.old ++ all_shown pieces.now) }
    {
        for piece in pieces {
            self.put_piece(*piece)?;
        }
        Ok(())
    }

    /// Writes what another page holds.
    pub fn append(&mut self, other: Page) -> Result<(), OutOfMemory>
        ensures { OnOk result (self.new ≡ self.old ++ other) }
    {
        self.bytes.extend_from_slice(&other.bytes)?;
        Ok(())
    }

    /// The bytes of the page. Takes no memory.
    pub fn into_bytes(self) -> Vec<u8>
        ensures { result.items ≡ self }
    {
        self.bytes
    }
}
