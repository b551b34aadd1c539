//! A text that is kept, with what was found of it once.

ghost use Rattle.std.specs.Prelude.{◌≡◌, ◌<◌, ◌^◌, length, IfOk, IfSome, slice_index};
ghost use Rattle.text_pieces.specs.Known.{ClosesAt, EndsAt, FreeOf};
ghost use Rattle.text_pieces.specs.Stops.{is_stop};

use crate::arguments::argument_ends;
use crate::blocks::block_ends;
use crate::stop::Stop;
use crate::stops::stops;
use std::alloc::{AllocError, Global};
use std::marker::Model;

/// The offset of bytes that are nowhere in the source, as the digits of a value.
pub const NOWHERE: u32 = u32::MAX;

/// Bytes, their places in the source, and for each place in them: the brace that closes the block that begins there, the
/// comma or parenthesis that ends the argument, and the next stop of either kind. 0 if the first two aren't known.
#[derive(Drop)]
pub struct Text {
    bytes: Vec<u8>,
    offsets: Vec<u32>,
    block_ends: Vec<u32>,
    argument_ends: Vec<u32>,
    questions: Vec<u32>,
    brackets: Vec<u32>,
}

impl Model for Text {
    ghost use Rattle.std.specs.Prelude.{◌<◌, ◌^◌, List, ℕ, length};
    ghost use Rattle.text_pieces.specs.Known.{ClosesAt, EndsAt, FreeOf, Tells};
    ghost use Rattle.text_pieces.specs.Stops.{is_stop};
    ghost use Rattle.text_pieces.specs.declared.stop.Stop.TheVariants as stop;

    ghost Value = { List ℕ };

    ghost view = { λ t. t.bytes.items };

    ghost invariant = { λ t. (Tells (ClosesAt t.bytes.items) 0 t.block_ends.items) × (Tells (EndsAt t.bytes.items) 0 t.argument_ends.items) × (Tells (FreeOf (is_stop stop.Question) t.bytes.items) 0 t.questions.items) × (Tells (FreeOf (is_stop stop.Argument) t.bytes.items) 0 t.brackets.items) };
}

/// What a table has at a place; 0 after its end.
fn entry(table: &[u32], place: usize) -> usize
    ensures { result ≡ slice_index table.now place }
{
    match table.get(place) {
        Some(found) => *found as usize,
        None => 0,
    }
}

impl Text {
    /// A text of these bytes, which are there in the source.
    pub fn new(alloc: Global, bytes: Vec<u8>, offsets: Vec<u32>) -> Result<Text, AllocError>
        requires { length bytes.items < 2 ^ 32 }
        ensures { IfOk result (λ t. t ≡ bytes.items) }
    {
        let block_ends = block_ends(alloc, &bytes)?;
        let argument_ends = argument_ends(alloc, &bytes)?;
        let questions = stops(alloc, &bytes, Stop::Question)?;
        let brackets = stops(alloc, &bytes, Stop::Argument)?;
        Ok(Text {
            bytes,
            offsets,
            block_ends,
            argument_ends,
            questions,
            brackets,
        })
    }

    pub fn bytes(&self) -> &[u8]
        ensures { result.now ≡ self.now }
    {
        &self.bytes
    }

    /// The place of a byte in the source.
    pub fn offset(&self, place: usize) -> u32 {
        match self.offsets.get(place) {
            Some(offset) => *offset,
            None => NOWHERE,
        }
    }

    /// The end of the block that begins at a place, if it is known.
    pub fn block_end(&self, place: usize) -> Option<usize>
        ensures { IfSome result (λ e. ClosesAt self.now place e) }
    {
        let end = entry(&self.block_ends, place);
        if end == 0 { None } else { Some(end) }
    }

    /// The end of the argument that begins at a place, if it is known.
    pub fn argument_end(&self, place: usize) -> Option<usize>
        ensures { IfSome result (λ e. EndsAt self.now place e) }
    {
        let end = entry(&self.argument_ends, place);
        if end == 0 { None } else { Some(end) }
    }

    /// A place up to which no stop is from this one on.
    pub fn stop(&self, stop: Stop, place: usize) -> usize
        ensures { FreeOf (is_stop stop) self.now place result }
    {
        match stop {
            Stop::Question => entry(&self.questions, place),
            Stop::Argument => entry(&self.brackets, place),
        }
    }
}
