//! All bytes of a reader, and all bytes to a writer; and whether bytes begin with others.

ghost use Rattle.std.specs.Io.KnownBytes.{Appends, Consumes, IsAtEnd};
ghost use Rattle.std.specs.Prelude.{true, IfSome, IfOk, OnOk, IsErrOf, IsTrue, ◌≡◌, ◌↔◌, ◌≤◌, ◌<◌, ◌-◌, length};
ghost use Rattle.outside.specs.Causes.{Begins};

use crate::files::ReadFault;
use std::alloc::Global;
use std::io::{ErrorKind, Read, Write};

/// All bytes of a reader, if there are no more than the limit.
pub fn read_all<S: Read>(source: &mut S, alloc: Global, limit: usize) -> Result<Vec<u8>, ReadFault>
    ensures bytes { IfOk result (λ v.
        Consumes (S.remaining source.old) (S.remaining source.new) v.items) }
    ensures end { OnOk result (IsAtEnd (S.remaining source.new)) }
    ensures within { IfOk result (λ v. length v.items ≤ limit) }
    ensures too_long { IsErrOf result ReadFault.TooLong
        → IfSome (S.remaining source.old) (λ known. limit < length known) }
{
    let mut bytes = Vec::new(alloc);
    let mut piece = [0u8; 4096];
    for _ in 0..u64::MAX {
        match source.read(&mut piece) {
            Ok(0) => return Ok(bytes),
            Ok(count) => {
                if limit - bytes.len() < count {
                    return Err(ReadFault::TooLong);
                }
                if bytes.extend_from_slice(&piece[..count]).is_err() {
                    return Err(ReadFault::OutOfMemory);
                }
            }
            Err(fault) => {
                if fault.kind() != ErrorKind::Interrupted {
                    return Err(ReadFault::Failed);
                }
            }
        }
    }
    Err(ReadFault::Failed)
}

/// Whether a writer took all of the bytes.
pub fn write_all<W: Write>(sink: &mut W, bytes: &[u8]) -> bool
    ensures { result ≡ true → Appends (W.contents sink.old) (W.contents sink.new) bytes.now }
{
    sink.write_all(bytes).is_ok()
}

/// Whether bytes begin with others. Takes no memory.
pub fn begins(bytes: &[u8], front: &[u8]) -> bool
    ensures { IsTrue result ↔ Begins bytes.now front.now }
{
    bytes.starts_with(front)
}
