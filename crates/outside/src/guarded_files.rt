//! Files that are not lost by a write.

ghost use Rattle.std.specs.Prelude.{◌≡◌, ◌≢◌, ◌≤◌, ◌⊎◌, ◌↔◌, IfOk, IsErrOf, IsTrue};
ghost use Rattle.outside.specs.Causes.{Rose, Begins};
ghost use Rattle.outside.specs.Outside.{MayReplace, SameFiles};

use crate::bytes::{begins, read_all};
use crate::files::{Files, ReadFault};
use std::alloc::Global;
use std::fs::Metadata;
use std::io::{ErrorKind, Read};
use std::os::unix::fs::{FileTypeExt, MetadataExt};
use std::{fs, rt};

/// Files of which can be asked, before a write, whether it would lose something.
pub trait GuardedFiles: Files {
    /// Whether a write under `output` loses nothing: there is no file, or one that begins with `front` and is not the
    /// file `input`. Changes no file.
    fn may_replace(&mut self, output: &str, input: &str, front: &[u8]) -> Result<bool, ReadFault>
        ensures may { Self.Tells → IfOk result (λ may. IsTrue may
            ↔ MayReplace (Self.file self.old) output.now input.now front.now) }
        ensures same { Self.Tells → SameFiles (Self.file self.old) (Self.file self.new) }
        ensures failed { IsErrOf result ReadFault.Failed
            → Rose (Self.faults self.old) (Self.faults self.new) }
        ensures still { IsErrOf result ReadFault.Failed
            ⊎ (Self.faults self.new ≡ Self.faults self.old) }
        ensures later { Self.faults self.old ≤ Self.faults self.new }
        ensures no_write { Self.write_faults self.new ≡ Self.write_faults self.old };
}

/// Whether a file may be lost: it is not the input, and begins with the front.
pub fn may_lose(output: &str, input: &str, bytes: &[u8], front: &[u8]) -> bool
    ensures { IsTrue result ↔ ((output.now ≢ input.now) × Begins bytes.now front.now) }
{
    output != input && begins(bytes, front)
}

/// Whether what a reader gives begins with the bytes.
fn gives_front<S: Read + Drop>(source: S, alloc: Global, front: &[u8]) -> Result<bool, ReadFault> {
    let mut first = source.take(front.len() as u64);
    let bytes = read_all(&mut first, alloc, front.len())?;
    Ok(begins(&bytes, front))
}

/// Whether there are bytes that a write replaces: those of a regular file or of a disk, and not of a terminal or a pipe.
fn has_bytes(found: &Metadata) -> bool {
    found.is_file() || found.file_type().is_block_device()
}

/// Whether a name leads to the file that was found.
fn is_same_file<R: rt::Files>(host: &R, found: &Metadata, name: &str) -> Result<bool, ReadFault> {
    match fs::metadata(host, name) {
        Ok(other) => Ok(found.dev() == other.dev() && found.ino() == other.ino()),
        Err(_) => Err(ReadFault::Failed),
    }
}

/// Whether a write to the file of a host loses nothing, as `GuardedFiles` says.
pub fn host_may_replace<R: rt::Files>(
    host: &R,
    alloc: Global,
    output: &str,
    input: &str,
    front: &[u8],
) -> Result<bool, ReadFault> {
    let found = match fs::metadata(host, output) {
        Ok(found) => found,
        Err(fault) if fault.kind() == ErrorKind::NotFound => return Ok(true),
        Err(_) => return Err(ReadFault::Failed),
    };
    if !has_bytes(&found) {
        return Ok(true);
    }
    if is_same_file(host, &found, input)? {
        return Ok(false);
    }
    match fs::open(host, output) {
        Ok(file) => gives_front(file, alloc, front),
        Err(_) => Err(ReadFault::Failed),
    }
}
