//! How many bytes of texts may be kept, and which of them are still needed.

use std::alloc::{AllocError, Global};
use text_pieces::{Piece, Watch};

/// The most bytes that are kept at a time. Each takes 21 bytes of memory, and stays as long as any part of its piece does.
pub const ROOM: usize = 1 << 21;

/// How many bytes may be kept for each piece of a text.
const SMALL: usize = 64;

/// How many bytes may be kept for each piece that was handled since the last text was kept. To keep them takes about as long
/// as to handle the pieces did.
const HANDLED: usize = 16;

/// A text that is kept, and how many bytes it has.
#[derive(Drop)]
struct Held {
    watch: Watch,
    bytes: usize,
}

/// How many bytes more may be kept, the texts that are, and what was done since: how many pieces were handled, and how often
/// a text found no room.
#[derive(Drop)]
pub struct Room {
    left: usize,
    held: Vec<Held>,
    handled: usize,
    refused: usize,
}

impl Room {
    /// Nothing is kept. It takes no memory.
    pub fn new(alloc: Global) -> Room {
        Room {
            left: ROOM,
            held: Vec::new(alloc),
            handled: 0,
            refused: 0,
        }
    }

    /// The longest text of so many pieces that it is worth to make one piece: so what is carried from call to call in ever more
    /// pieces becomes one piece again.
    pub fn worth(&mut self, pieces: usize) -> usize {
        self.handled = self.handled.saturating_add(pieces);
        let many = self.handled.saturating_mul(HANDLED);
        many.max(pieces.saturating_mul(SMALL))
    }

    /// Forgets the texts of which no piece is left.
    fn sweep(&mut self, alloc: Global) -> Result<(), AllocError> {
        let mut needed = Vec::new(alloc);
        'held: while let Some(held) = self.held.pop() {
            if held.watch.is_gone() {
                self.left = self.left.saturating_add(held.bytes);
            } else {
                needed.push(held)?;
            }
        }
        self.held = needed;
        self.refused = 0;
        Ok(())
    }

    /// Whether a text of so many bytes may be kept. The texts are looked through only as often as others find no room, so that
    /// this takes little time however many they are.
    pub fn has(&mut self, alloc: Global, bytes: usize) -> Result<bool, AllocError> {
        if bytes <= self.left {
            return Ok(true);
        }
        self.refused = self.refused.saturating_add(1);
        if self.refused > self.held.len() {
            self.sweep(alloc)?;
        }
        Ok(bytes <= self.left)
    }

    /// Takes the room of a text that is kept.
    pub fn hold(&mut self, piece: &Piece, bytes: usize) -> Result<(), AllocError> {
        self.handled = 0;
        let Some(watch) = piece.watch()? else {
            return Ok(());
        };
        self.left = self.left.saturating_sub(bytes);
        self.held.push(Held { watch, bytes })?;
        Ok(())
    }
}
