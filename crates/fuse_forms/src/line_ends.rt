//! Line ends of CR LF.

ghost use Rattle.std.specs.Prelude.{◌≡◌, ◌++◌, IfOk, OnOk};
ghost use Rattle.fuse_forms.specs.LineEnds.{ended, with_line_ends};

use pld_base::OutOfMemory;
use std::alloc::Global;

/// Appends a byte that follows another one, with a CR before it if it is an LF that has none.
fn put_ended(text: &mut Vec<u8>, previous: u8, byte: u8) -> Result<(), OutOfMemory>
    ensures { OnOk result (text.new.items ≡ text.old.items ++ ended previous byte) }
{
    if byte == b'\n' && previous != b'\r' {
        text.extend_from_slice(b"\r\n")?;
    } else {
        text.push(byte)?;
    }
    Ok(())
}

/// The bytes with a CR before each LF that has none.
pub fn with_line_ends(alloc: Global, bytes: &[u8]) -> Result<Vec<u8>, OutOfMemory>
    ensures { IfOk result (λ v. v.items ≡ with_line_ends bytes.now) }
{
    let mut text = Vec::new(alloc);
    let mut previous = 0u8;
    for byte in bytes {
        put_ended(&mut text, previous, *byte)?;
        previous = *byte;
    }
    Ok(text)
}
