//! The file with other fuses.

ghost use Rattle.std.specs.Prelude.{◌≡◌, ◌≤◌, length, IfOk, Ok};
ghost use Rattle.spliced_files.specs.Prelude.{FuseFile, Gives, IsIntactPastLines, IsPlainName, file_of};
ghost use Rattle.spliced_files.specs.Kept.{behind_first, kept_lines};
ghost use Rattle.spliced_files.specs.Spliced.{HasNoEnd, head_of, spliced, spliced_text, with_fuses};

use crate::header::{design_of, title_of};
use crate::kept::put_kept;
use jedec_file::{JedecFault, byte_sum};
use jedec_reader::frame_of;
use jedec_writer::write;
use pld_base::{OutOfMemory, put_hex};
use pld_device::{Device, Fuses, Loaded};
use std::alloc::Global;

/// The last byte of the text before its sum.
const ETX: u8 = 3;

/// The canonical file without vectors, up to its end byte.
fn head<T: Device>(
    alloc: Global,
    device: &Loaded<T>,
    name: &[u8],
    fuses: &Fuses,
) -> Result<Vec<u8>, OutOfMemory>
    requires name { IsPlainName name.now }
    requires size { length fuses.now ≡ T.table.fuses }
    requires lines { IsIntactPastLines T.table fuses.now }
    ensures { IfOk result (λ out. out.items ≡ head_of T.table name.now fuses.now) }
{
    let mut file = write::<T>(alloc, device, name, fuses, &[])?;
    file.truncate(file.len() - 5);
    Ok(file)
}

/// The file of a text, with its sum.
fn spliced_text<F: Device, T: Device>(
    alloc: Global,
    from: &Loaded<F>,
    to: &Loaded<T>,
    text: &[u8],
    fuses: &Fuses,
) -> Result<Vec<u8>, OutOfMemory>
    requires text { HasNoEnd text.now }
    requires size { length fuses.now ≡ T.table.fuses }
    requires lines { IsIntactPastLines T.table fuses.now }
    ensures { IfOk result (λ out. out.items ≡ spliced_text F.table T.table fuses.now text.now) }
{
    let device = from.name();
    let name = title_of(design_of(text), device.text().as_bytes());
    let mut out = head::<T>(alloc, to, name, fuses)?;
    put_kept(&mut out, text)?;
    out.push(ETX)?;
    let sum = byte_sum(&out);
    put_hex(&mut out, sum)?;
    Ok(out)
}

/// The bytes of a fuse file of the first device, with fuses of the second in place of its own: the name in its header, and each
/// field that doesn't speak of fuses, in their order, follow the lines of a canonical file.
///
/// Refuses bytes without a start byte, an end byte or the right sum; of other bytes that are no fuse file nothing is said. Takes
/// the memory of the file that is made, twice at most.
pub fn spliced<F: Device, T: Device>(
    alloc: Global,
    from: &Loaded<F>,
    to: &Loaded<T>,
    bytes: &[u8],
    fuses: &Fuses,
) -> Result<Vec<u8>, JedecFault>
    requires size { length fuses.now ≡ T.table.fuses }
    requires lines { IsIntactPastLines T.table fuses.now }
    ensures gives { Gives (λ v. v.items) result (spliced F.table T.table fuses.now bytes.now) }
    // If the bytes are a fuse file, so are these: of these fuses, with the vectors and the default level of the first.
    ensures reads { F.table.pins ≡ T.table.pins → (file : FuseFile) → file_of F.table bytes.now ≡ Ok file
        → IfOk result (λ out. file_of T.table out.items ≡ Ok (with_fuses T.table fuses.now file)) }
{
    let (_at, text) = frame_of(bytes)?;
    let out = spliced_text::<F, T>(alloc, from, to, text, fuses)?;
    Ok(out)
}
