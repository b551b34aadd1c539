//! Bytes as a page shows them.

ghost use Rattle.std.specs.Prelude.{◌≡◌, ◌++◌, OnOk};
ghost use Rattle.design_drawings.specs.Escaped.{escaped, escaped_byte, plain_byte, reference};

use pld_base::{OutOfMemory, put_decimal};
use std::alloc::Global;

/// The first of Unicode's pictures of control characters, that of 0, and that of 127.
const FIRST_PICTURE: usize = 9216;

const DELETE_PICTURE: usize = 9249;

/// Appends a character by its number.
fn put_reference(alloc: Global, out: &mut Vec<u8>, number: usize) -> Result<(), OutOfMemory>
    ensures { OnOk result (out.new.items ≡ out.old.items ++ reference number) }
{
    out.extend_from_slice(b"&#")?;
    put_decimal(alloc, out, number)?;
    out.push(b';')?;
    Ok(())
}

/// Appends a byte that is no markup: a control byte by its picture, so that a page has no control bytes.
fn put_plain(alloc: Global, out: &mut Vec<u8>, byte: u8) -> Result<(), OutOfMemory>
    ensures { OnOk result (out.new.items ≡ out.old.items ++ plain_byte byte) }
{
    if byte == b'\t' || byte == b'\n' {
        out.push(byte)?;
        return Ok(());
    }
    if byte < 32 {
        return put_reference(alloc, out, FIRST_PICTURE + usize::from(byte));
    }
    if byte == 127 {
        return put_reference(alloc, out, DELETE_PICTURE);
    }
    out.push(byte)?;
    Ok(())
}

/// Appends a byte as a page shows it.
fn put_byte(alloc: Global, out: &mut Vec<u8>, byte: u8) -> Result<(), OutOfMemory>
    ensures { OnOk result (out.new.items ≡ out.old.items ++ escaped_byte byte) }
{
    match byte {
        b'<' => out.extend_from_slice(b"&lt;")?,
        b'>' => out.extend_from_slice(b"&gt;")?,
        b'&' => out.extend_from_slice(b"&amp;")?,
        b'"' => out.extend_from_slice(b"&quot;")?,
        b'\'' => out.extend_from_slice(b"&#39;")?,
        _ => put_plain(alloc, out, byte)?,
    }
    Ok(())
}

/// Appends bytes as text between tags, or within a quoted attribute: it has no `<`, `>`, `&` or quote of its own.
pub fn put_escaped(alloc: Global, out: &mut Vec<u8>, bytes: &[u8]) -> Result<(), OutOfMemory>
    ensures { OnOk result (out.new.items ≡ out.old.items ++ escaped bytes.now) }
{
    for byte in bytes {
        put_byte(alloc, out, *byte)?;
    }
    Ok(())
}
