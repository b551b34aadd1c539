//! Reading a whole file.

ghost use Rattle.std.specs.Prelude.{◌≡◌, ◌<◌, ◌^◌, length, IfOk, IfErr, Ok, All};
ghost use Rattle.jedec_reader.specs.Prelude.{file_of, Refuses};
ghost use Rattle.jedec_reader.specs.Contents.{IsPadded, contents};

use crate::contents::contents;
use crate::field_list::fields;
use crate::fuse_file::FuseFile;
use jedec_file::JedecFault;
use pld_device::{Device, Loaded};
use std::alloc::Global;

/// What the bytes of a fuse file say of a device, or why they aren't one (JESD3-C; which fields are
/// refused, and in which order, is this project's rule).
///
/// The fault is the first one in this order: no start byte, no end byte with a sum, the sum of the
/// bytes, the fields from the first to the last, the sizes, a fuse without a level, the fuse sum.
/// Bytes before the start byte and after the sum count for nothing. Takes memory for the fields and
/// for what they say; `OutOfMemory` may replace any other answer.
pub fn read<D: Device>(
    alloc: Global,
    device: &Loaded<D>,
    bytes: &[u8],
) -> Result<FuseFile, JedecFault>
    requires { length bytes.now < 2 ^ 32 }
    ensures file { IfOk result (λ file. file_of D.table bytes.now ≡ Ok (contents D.table file)) }
    ensures refused { IfErr result (λ fault. Refuses fault (file_of D.table bytes.now)) }
    ensures fuses { IfOk result (λ file. length file.fuses ≡ D.table.fuses) }
    ensures padded { IfOk result (λ file. All (IsPadded D.table) file.vectors) }
{
    let fields = fields::<D>(alloc, device, bytes)?;
    contents::<D>(alloc, device, &fields)
}
