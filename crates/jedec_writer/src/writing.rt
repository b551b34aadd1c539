//! The whole file.

ghost use Rattle.std.specs.Prelude.{◌≡◌, ◌≤◌, ◌∷◌, ◌++◌, length, false, IfOk, OnOk, Ok, All, codes};
ghost use Rattle.pld_base.specs.DeviceNames.{device_text};
ghost use Rattle.jedec_file.specs.CanonicalFile.{IsPlainName, canonical_body, canonical_file};
ghost use Rattle.jedec_file.specs.ControlLines.{IsIntactPastLines};
ghost use Rattle.jedec_file.specs.FileText.{STX, line, space};
ghost use Rattle.jedec_file.specs.FuseFile.{file_of};
ghost use Rattle.jedec_file.specs.TestVectors.{IsTestVector, all_chars};
ghost use Rattle.jedec_writer.specs.Places.{HasPlaces};

use crate::array::put_rows;
use crate::control::put_control;
use crate::lines::{put_counted, put_end, put_fuse_sum};
use crate::sums::fuse_sum;
use crate::vectors::{put_default_test, put_vector_count, put_vectors};
use jedec_file::byte_sum;
use pld_base::{OutOfMemory, Vector, put_hex};
use pld_device::{Device, Fuses, Loaded};
use std::alloc::Global;

/// The last byte of the text before its sum.
const ETX: u8 = 3;

/// The blank before the device's name, the name, and the end of its line.
fn put_device<D: Device>(device: &Loaded<D>, out: &mut Vec<u8>) -> Result<(), OutOfMemory>
    ensures { OnOk result (out.new.items ≡ out.old.items ++ line (space ∷ device_text D.table.name)) }
{
    out.push(b' ')?;
    let name = device.name();
    out.extend_from_slice(name.text().as_bytes())?;
    put_end(out)
}

/// The line with the names of the module and of the device, after the start byte.
fn put_header<D: Device>(
    device: &Loaded<D>,
    out: &mut Vec<u8>,
    name: &[u8],
) -> Result<(), OutOfMemory>
    ensures { OnOk result (out.new.items ≡ out.old.items
        ++ line (STX ∷ codes "ABEL-HDL " ++ name.now ++ space ∷ device_text D.table.name)) }
{
    out.extend_from_slice(b"\x02ABEL-HDL ")?;
    out.extend_from_slice(name)?;
    put_device::<D>(device, out)
}

/// The text from its first byte to the last one before its sum.
fn body<D: Device>(
    alloc: Global,
    device: &Loaded<D>,
    name: &[u8],
    fuses: &Fuses,
    vectors: &[Vector],
) -> Result<Vec<u8>, OutOfMemory>
    requires size { length fuses.now ≡ D.table.fuses }
    requires few { length vectors.now ≤ 9999 }
    ensures body { IfOk result (λ out. out.items
        ≡ canonical_body D.table name.now fuses.now (all_chars D.table vectors.now)) }
    ensures places { IfOk result (λ _. All HasPlaces vectors.now) }
{
    let mut out = Vec::new(alloc);
    put_header::<D>(device, &mut out, name)?;
    put_counted(alloc, &mut out, b"QP", usize::from(device.pins()))?;
    put_counted(alloc, &mut out, b"QF", usize::from(device.fuses()))?;
    put_vector_count::<D>(alloc, &mut out, vectors)?;
    out.extend_from_slice(b"F0*\r\nG0*\r\n")?;
    put_default_test::<D>(&mut out, vectors)?;
    put_rows::<D>(device, &mut out, fuses.levels())?;
    put_control::<D>(device, &mut out, fuses.levels())?;
    put_fuse_sum(&mut out, fuse_sum(fuses))?;
    put_vectors::<D>(device, &mut out, vectors)?;
    out.push(ETX)?;
    Ok(out)
}

/// The text with its transmission sum.
fn written<D: Device>(
    alloc: Global,
    device: &Loaded<D>,
    name: &[u8],
    fuses: &Fuses,
    vectors: &[Vector],
) -> Result<Vec<u8>, OutOfMemory>
    requires size { length fuses.now ≡ D.table.fuses }
    requires few { length vectors.now ≤ 9999 }
    ensures file { IfOk result (λ out. out.items
        ≡ canonical_file D.table name.now fuses.now (all_chars D.table vectors.now)) }
    ensures places { IfOk result (λ _. All HasPlaces vectors.now) }
{
    let mut out = body::<D>(alloc, device, name, fuses, vectors)?;
    let sum = byte_sum(&out);
    put_hex(&mut out, sum)?;
    Ok(out)
}

/// The canonical fuse file of a module's name, a device's fuses and test vectors (the fields and sums:
/// JESD3-C; which lines there are, and in which order, is this project's rule).
///
/// There are as many fuses as the device has, and those past its array and its last control fuse are 0,
/// since no line names them. Of a vector the characters of the device's pins are written; vectors are
/// numbered from 1. The name has no `*` and no end byte (3). Answers only lack of memory.
pub fn write<D: Device>(
    alloc: Global,
    device: &Loaded<D>,
    name: &[u8],
    fuses: &Fuses,
    vectors: &[Vector],
) -> Result<Vec<u8>, OutOfMemory>
    requires name { IsPlainName name.now }
    requires size { length fuses.now ≡ D.table.fuses }
    requires lines { IsIntactPastLines D.table fuses.now }
    requires few { length vectors.now ≤ 9999 }
    requires chars { All (IsTestVector D.table) vectors.now }
    // The bytes.
    ensures canonical { IfOk result (λ out. out.items
        ≡ canonical_file D.table name.now fuses.now (all_chars D.table vectors.now)) }
    // Read as a fuse file they say just what was given.
    ensures reads_back { IfOk result (λ out. file_of D.table out.items ≡ Ok (record {
      fuses = fuses.now;
      listed = D.table.fuses;
      vectors = all_chars D.table vectors.now;
      default_level = false;
    })) }
    // With a name that is no longer than that of a module, a reader's limit is far off.
    ensures short { length name.now ≤ 31 → IfOk result (λ out. length out.items ≤ 400000) }
{
    written::<D>(alloc, device, name, fuses, vectors)
}
