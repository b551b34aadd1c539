//! A text that contracts see as its bytes.

ghost use Rattle.std.specs.Prelude.{◌≡◌, ◌≤◌, length, IfOk};
ghost use Rattle.pld_base.specs.Texts.{bytes_of, IsSound};

use crate::out_of_memory::OutOfMemory;
use std::alloc::Global;
use std::marker::Model;

/// How many bytes a text holds within itself.
const SHORT: usize = 14;

/// A name or another piece of a source, seen by contracts as its bytes.
///
/// It takes 16 bytes, and memory beyond them only if it is longer than 14: a token or a tree of short
/// names takes no more memory than itself.
#[derive(Drop)]
pub struct NameText {
    text: Text,
}

/// A text by its place.
#[derive(Drop)]
enum Text {
    /// The first `length` of these bytes.
    Short { length: u8, bytes: [u8; SHORT] },
    /// The bytes on the heap, after one pointer.
    Long(Box<Vec<u8>>),
}

impl Model for NameText {
    ghost use Rattle.std.specs.Prelude.{ℕ, List};
    ghost use Rattle.pld_base.specs.Texts.{bytes_of, IsSound};

    ghost Value = { List ℕ };

    ghost view = { λ t. bytes_of t.text };

    ghost invariant = { λ t. IsSound t.text };
}

impl NameText {
    /// A text of just these bytes.
    pub fn new(alloc: Global, bytes: &[u8]) -> Result<NameText, OutOfMemory>
        ensures { IfOk result (λ t. t ≡ bytes.now) }
    {
        let text = if bytes.len() <= SHORT {
            short(bytes)
        } else {
            Text::Long(Box::new(alloc, Vec::from_slice(alloc, bytes)?)?)
        };
        Ok(NameText { text })
    }

    /// The bytes that it was made of. Takes no memory.
    pub fn bytes(&self) -> &[u8]
        ensures { result.now ≡ self.now }
    {
        match &self.text {
            Text::Short { length, bytes } => &bytes[..usize::from(*length)],
            Text::Long(bytes) => bytes.as_slice(),
        }
    }

    /// An equal text.
    pub fn copy(&self, alloc: Global) -> Result<NameText, OutOfMemory>
        ensures { IfOk result (λ t. t ≡ self.now) }
    {
        NameText::new(alloc, self.bytes())
    }
}

/// At most 14 bytes as a text.
fn short(bytes: &[u8]) -> Text
    requires { length bytes.now ≤ 14 }
    ensures bytes { bytes_of result ≡ bytes.now }
    ensures sound { IsSound result }
{
    let mut held = [0; SHORT];
    held[..bytes.len()].copy_from_slice(bytes);
    Text::Short {
        length: bytes.len() as u8,
        bytes: held,
    }
}
