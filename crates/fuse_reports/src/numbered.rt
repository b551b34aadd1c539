//! A number after a piece of text.

ghost use Rattle.std.specs.Prelude.{◌≡◌, ◌++◌, OnOk};
ghost use Rattle.fuse_reports.specs.Prelude.{decimal};

use pld_base::{OutOfMemory, put_decimal};
use std::alloc::Global;

/// Appends a piece and a number.
pub fn put_numbered(
    alloc: Global,
    text: &mut Vec<u8>,
    piece: &[u8],
    number: usize,
) -> Result<(), OutOfMemory>
    ensures { OnOk result (text.new.items ≡ text.old.items ++ (piece.now ++ decimal number)) }
{
    text.extend_from_slice(piece)?;
    put_decimal(alloc, text, number)?;
    Ok(())
}
