//! A fuse file of one device, written for another with the same array.

ghost use Rattle.std.specs.Prelude.{◌≡◌, length, IfErr, IfOk, Ok};
ghost use Rattle.fuse_porting.specs.Prelude.{contents, file_of};
ghost use Rattle.fuse_porting.specs.Pairs.{IsPair};
ghost use Rattle.fuse_porting.specs.Polarities.{IsPortFault};
ghost use Rattle.fuse_porting.specs.PortedFile.{IsPortedFile};

use crate::fault::PortFault;
use crate::porting::ported;
use jedec_file::JedecFault;
use jedec_reader::FuseFile;
use pld_device::{Device, Loaded};
use spliced_files::spliced;
use std::alloc::Global;

/// The bytes of a fuse file with which the other device does what this one does with the file that was read from bytes. The name
/// in the header, notes, test vectors and the level of pins that these don't drive are kept.
///
/// Takes the memory of `ported` and of `spliced`.
pub fn ported_file<F: Device, T: Device>(
    alloc: Global,
    from: &Loaded<F>,
    to: &Loaded<T>,
    bytes: &[u8],
    file: &FuseFile,
) -> Result<Vec<u8>, PortFault>
    requires pair { IsPair F.table T.table }
    requires read { file_of F.table bytes.now ≡ Ok (contents F.table file.now) }
    requires size { length file.now.fuses ≡ F.table.fuses }
    ensures ported { IfOk result (λ out.
        IsPortedFile F.table T.table bytes.now (contents F.table file.now) out.items) }
    ensures refused { IfErr result (IsPortFault F.table T.table file.now.fuses) }
{
    let fuses = ported::<F, T>(alloc, from, to, &file.fuses)?;
    match spliced::<F, T>(alloc, from, to, bytes, &fuses) {
        Ok(out) => Ok(out),
        Err(fault) => match fault {
            JedecFault::OutOfMemory => Err(PortFault::OutOfMemory),
            // The bytes were read, so that they have a start, an end and the right sum.
            _ => unreachable!(),
        },
    }
}
