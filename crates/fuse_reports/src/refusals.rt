//! The lines of the report on bytes that are no fuse file of a device.

ghost use Rattle.std.specs.Prelude.{◌≡◌, ◌++◌, IsErr, IfOk, OnOk, get_or};
ghost use Rattle.jedec_file.specs.declared.jedec_fault.JedecFault.TheVariants as refusal;
ghost use Rattle.fuse_reports.specs.Prelude.{four_hex};
ghost use Rattle.fuse_reports.specs.FaultText.{fault_line, fault_text, two_sums};
ghost use Rattle.fuse_reports.specs.FuseFiles.{wrong_mode_line};

use crate::numbered::put_numbered;
use jedec_file::JedecFault;
use pld_base::{OutOfMemory, put_hex};
use std::alloc::Global;

/// Appends a piece and a sum.
fn put_sum(text: &mut Vec<u8>, piece: &[u8], sum: u16) -> Result<(), OutOfMemory>
    ensures { OnOk result (text.new.items ≡ text.old.items ++ (piece.now ++ four_hex sum)) }
{
    text.extend_from_slice(piece)?;
    put_hex(text, sum)?;
    Ok(())
}

/// Appends a name and the two sums that differ: the one that the file says, and the one that was
/// found.
fn put_sums(text: &mut Vec<u8>, name: &[u8], read: u16, found: u16) -> Result<(), OutOfMemory>
    ensures { OnOk result (text.new.items ≡ text.old.items ++ (name.now ++ two_sums read found)) }
{
    text.extend_from_slice(name)?;
    put_sum(text, b" read ", read)?;
    put_sum(text, b" found ", found)?;
    Ok(())
}

/// The byte at an offset, 0 past the end. Takes no memory.
fn byte_at(bytes: &[u8], at: usize) -> u8
    ensures { result ≡ get_or bytes.now at 0 }
{
    *bytes.get(at).unwrap_or(&0)
}

/// Appends that the field at an offset is not read, and its letter.
fn put_unsupported(
    alloc: Global,
    text: &mut Vec<u8>,
    bytes: &[u8],
    at: usize,
) -> Result<(), OutOfMemory>
    ensures { OnOk result (text.new.items
        ≡ text.old.items ++ fault_text bytes.now (refusal.UnsupportedField at)) }
{
    put_numbered(alloc, text, b"UnsupportedField at ", at)?;
    text.extend_from_slice(&[b' ', byte_at(bytes, at)])?;
    Ok(())
}

/// Appends the name of a refusal and what was found. Lack of memory is no refusal.
fn put_fault(
    alloc: Global,
    text: &mut Vec<u8>,
    bytes: &[u8],
    fault: &JedecFault,
) -> Result<(), OutOfMemory>
    ensures text { OnOk result
        (text.new.items ≡ text.old.items ++ fault_text bytes.now fault.now) }
    ensures memory { fault.now ≡ refusal.OutOfMemory → IsErr result }
{
    match fault {
        JedecFault::NoStart => text.extend_from_slice(b"NoStart")?,
        JedecFault::NoEnd => text.extend_from_slice(b"NoEnd")?,
        JedecFault::FileSum { read, found } => put_sums(text, b"FileSum", *read, *found)?,
        JedecFault::BadField(at) => put_numbered(alloc, text, b"BadField at ", *at)?,
        JedecFault::UnsupportedField(at) => put_unsupported(alloc, text, bytes, *at)?,
        JedecFault::WrongSize => text.extend_from_slice(b"WrongSize")?,
        JedecFault::Unlisted(fuse) => {
            put_numbered(alloc, text, b"Unlisted ", usize::from(*fuse))?;
        }
        JedecFault::FuseSum { read, found } => put_sums(text, b"FuseSum", *read, *found)?,
        JedecFault::OutOfMemory => return Err(OutOfMemory),
    }
    Ok(())
}

/// The line on a refusal of these bytes. Lack of memory is no refusal.
pub fn fault_line(alloc: Global, bytes: &[u8], fault: &JedecFault) -> Result<Vec<u8>, OutOfMemory>
    ensures line { IfOk result (λ text. text.items ≡ fault_line bytes.now fault.now) }
    ensures memory { fault.now ≡ refusal.OutOfMemory → IsErr result }
{
    let mut text = Vec::from_slice(alloc, b"error ")?;
    put_fault(alloc, &mut text, bytes, fault)?;
    text.push(b'\n')?;
    Ok(text)
}

/// The line on a fuse that has another level than the one that the device fixes.
pub fn wrong_mode_line(alloc: Global, fuse: u16) -> Result<Vec<u8>, OutOfMemory>
    ensures { IfOk result (λ text. text.items ≡ wrong_mode_line fuse) }
{
    let mut text = Vec::new(alloc);
    put_numbered(alloc, &mut text, b"error WrongMode ", usize::from(fuse))?;
    text.push(b'\n')?;
    Ok(text)
}
