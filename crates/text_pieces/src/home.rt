//! What has the bytes of a piece: bytes that are there, or a text that is kept.

ghost use Rattle.std.specs.Prelude.{◌≡◌, IfOk, IfSome};
ghost use Rattle.text_pieces.specs.Homes.{home_bytes};
ghost use Rattle.text_pieces.specs.Known.{ClosesAt, EndsAt, FreeOf};
ghost use Rattle.text_pieces.specs.Stops.{is_stop};

use crate::stop::Stop;
use crate::text::Text;
use crate::watch::Watch;
use std::alloc::AllocError;
use std::rc::Rc;

/// What has the bytes of a piece.
#[derive(Drop)]
pub enum Home<'a> {
    /// Bytes that are there, and the offset in the source of the first one.
    Lent(&'a [u8], usize),
    /// A text that is kept.
    Kept(Rc<Text>),
}

impl<'a> Home<'a> {
    pub fn bytes(&self) -> &[u8]
        ensures { result.now ≡ home_bytes self.now }
    {
        match self {
            Home::Lent(bytes, _offset) => bytes,
            Home::Kept(text) => text.bytes(),
        }
    }

    /// The same, once more.
    pub fn shared(&self) -> Result<Home<'a>, AllocError>
        ensures { IfOk result (λ h. home_bytes h ≡ home_bytes self.now) }
    {
        match self {
            Home::Lent(bytes, offset) => Ok(Home::Lent(bytes, *offset)),
            Home::Kept(text) => Ok(Home::Kept(text.clone()?)),
        }
    }

    /// A watch over a text that is kept.
    pub fn watch(&self) -> Result<Option<Watch>, AllocError> {
        match self {
            Home::Lent(_bytes, _offset) => Ok(None),
            Home::Kept(text) => Ok(Some(Watch::new(Rc::downgrade(text)?))),
        }
    }

    /// The place of a byte in the source.
    pub fn offset(&self, place: usize) -> usize {
        match self {
            Home::Lent(_bytes, offset) => offset.saturating_add(place),
            Home::Kept(text) => text.offset(place) as usize,
        }
    }

    /// The end of the block that begins at a place, if it is known.
    pub fn block_end(&self, place: usize) -> Option<usize>
        ensures { IfSome result (λ e. ClosesAt (home_bytes self.now) place e) }
    {
        match self {
            Home::Lent(_bytes, _offset) => None,
            Home::Kept(text) => text.block_end(place),
        }
    }

    /// The end of the argument that begins at a place, if it is known.
    pub fn argument_end(&self, place: usize) -> Option<usize>
        ensures { IfSome result (λ e. EndsAt (home_bytes self.now) place e) }
    {
        match self {
            Home::Lent(_bytes, _offset) => None,
            Home::Kept(text) => text.argument_end(place),
        }
    }

    /// A place up to which no stop is from this one on.
    pub fn stop(&self, stop: Stop, place: usize) -> usize
        ensures { FreeOf (is_stop stop) (home_bytes self.now) place result }
    {
        match self {
            Home::Lent(_bytes, _offset) => 0,
            Home::Kept(text) => text.stop(stop, place),
        }
    }
}
