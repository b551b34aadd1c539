//! Calls of macros with parameters, and the one that is kept with its result.

ghost use Rattle.std.specs.Prelude.{◌≡◌, true, IfOk};
ghost use Rattle.abel_macros.specs.Prelude.{joined};
ghost use Rattle.abel_macros.specs.Pieces.{names, texts};

use std::alloc::{AllocError, Global};
use text_pieces::Piece;

/// A call of a macro: its name, and the arguments in pieces.
#[derive(Drop)]
pub struct Call<'a> {
    pub name: Vec<u8>,
    pub arguments: Vec<Vec<Piece<'a>>>,
}

/// A call that is kept: the macro's name, the bytes of the arguments, and the result in pieces.
#[derive(Drop)]
pub struct KeptCall<'a> {
    pub name: Vec<u8>,
    pub arguments: Vec<Vec<u8>>,
    pub text: Vec<Piece<'a>>,
}

/// Whether a text in pieces has these bytes.
#[tactic(auto, using(crate::proofs::Calls::text_next, crate::proofs::Calls::text_all))]
fn is_text(pieces: &[Piece], bytes: &[u8]) -> bool
    ensures { result ≡ true → joined pieces.now ≡ bytes.now }
{
    let mut left = bytes;
    for piece in pieces {
        let Some(more) = left.strip_prefix(piece.bytes()) else {
            return false;
        };
        left = more;
    }
    left.is_empty()
}

/// Whether arguments in pieces have these bytes.
#[tactic(auto, using(crate::proofs::Calls::texts_next, crate::proofs::Calls::texts_all))]
fn are_texts(arguments: &[Vec<Piece>], bytes: &[Vec<u8>]) -> bool
    ensures { result ≡ true → texts arguments.now ≡ names bytes.now }
{
    if arguments.len() != bytes.len() {
        return false;
    }
    let mut same = 0;
    'arguments: while same < bytes.len() {
        if !is_text(&arguments[same], &bytes[same]) {
            return false;
        }
        same += 1;
    }
    true
}

/// The bytes of a text in pieces.
#[tactic(auto, using(crate::proofs::Calls::bytes_next, crate::proofs::Calls::bytes_all))]
fn bytes_of(alloc: Global, pieces: &[Piece]) -> Result<Vec<u8>, AllocError>
    ensures { IfOk result (λ w. w.items ≡ joined pieces.now) }
{
    let mut bytes = Vec::new(alloc);
    for piece in pieces {
        bytes.extend_from_slice(piece.bytes())?;
    }
    Ok(bytes)
}

/// The bytes of arguments in pieces.
#[tactic(auto, using(crate::proofs::Calls::arguments_next, crate::proofs::Calls::arguments_all))]
fn arguments_of(alloc: Global, arguments: &[Vec<Piece>]) -> Result<Vec<Vec<u8>>, AllocError>
    ensures { IfOk result (λ w. names w.items ≡ texts arguments.now) }
{
    let mut copied = Vec::new(alloc);
    for argument in arguments {
        let bytes = bytes_of(alloc, argument)?;
        copied.push(bytes)?;
    }
    Ok(copied)
}

impl<'a> KeptCall<'a> {
    /// A call with its result.
    pub fn new(
        alloc: Global,
        call: Call<'a>,
        text: Vec<Piece<'a>>,
    ) -> Result<KeptCall<'a>, AllocError>
        ensures name { IfOk result (λ k. k.name.items ≡ call.entry.name.items) }
        ensures arguments { IfOk result (λ k. names k.arguments.items ≡ texts call.entry.arguments.items) }
        ensures text { IfOk result (λ k. joined k.text.items ≡ joined text.entry.items) }
    {
        let arguments = arguments_of(alloc, &call.arguments)?;
        Ok(KeptCall {
            name: call.name,
            arguments,
            text,
        })
    }

    /// Whether it is a call of this name with these arguments.
    pub fn is_of(&self, name: &[u8], arguments: &[Vec<Piece<'a>>]) -> bool
        ensures name { result ≡ true → name.now ≡ self.now.name.items }
        ensures arguments { result ≡ true → texts arguments.now ≡ names self.now.arguments.items }
    {
        self.name.as_slice() == name && are_texts(arguments, &self.arguments)
    }
}
