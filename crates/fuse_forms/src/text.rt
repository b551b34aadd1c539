//! The fuse file that says what is given.

ghost use Rattle.std.specs.Prelude.{IfOk, IfSome};
ghost use Rattle.fuse_forms.specs.InForm.{IsReadAs};
ghost use Rattle.fuse_forms.specs.Prelude.{contents};

use crate::same::is_same_file;
use crate::texts::text_of;
use jedec_file::JedecFault;
use jedec_reader::{FuseFile, read};
use pld_base::OutOfMemory;
use pld_device::{Device, Loaded};
use std::alloc::Global;

/// The most bytes that a fuse file may have.
const LIMIT: usize = 1_048_576;

/// The bytes of a fuse file that says this, with the security field `G1` or `G0`. They were read back, and say just the fuses,
/// their number, the vectors and the default level that are given. `None` only if no bytes of this form were read back so: a
/// fuse past the listed ones is opened, or the text has more than 1,048,576 bytes.
pub fn written<D: Device>(
    alloc: Global,
    device: &Loaded<D>,
    file: &FuseFile,
    secured: bool,
) -> Result<Option<Vec<u8>>, OutOfMemory>
    ensures { IfOk result (λ found. IfSome found
        (λ bytes. IsReadAs D.table bytes.items (contents D.table file.now))) }
{
    let bytes = text_of::<D>(alloc, device, file, secured)?;
    if bytes.len() > LIMIT {
        return Ok(None);
    }
    match read::<D>(alloc, device, &bytes) {
        Ok(back) if is_same_file(&back, file) => Ok(Some(bytes)),
        Ok(_) => Ok(None),
        Err(JedecFault::OutOfMemory) => Err(OutOfMemory),
        Err(_) => Ok(None),
    }
}
