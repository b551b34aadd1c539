//! What bytes amount to as a fuse file of a device: with which each command on fuse files begins.

ghost use Rattle.std.specs.Prelude.{◌≡◌, ◌≤◌, IfOk, Ok, length};
ghost use Rattle.fuse_reports.specs.Prelude.{file_of, contents};
ghost use Rattle.fuse_reports.specs.FuseFiles.{IsTaken};
ghost use Rattle.fuse_reports.specs.Ending.{limit};

use crate::refusals::{fault_line, wrong_mode_line};
use jedec_reader::{FuseFile, read};
use pld_base::OutOfMemory;
use pld_device::{Device, Loaded, wrong_fuse};
use std::alloc::Global;

/// What bytes amount to: the file, or the line on why they aren't one.
#[derive(Drop)]
pub enum Taken {
    File(FuseFile),
    Refused(Vec<u8>),
}

/// A file that was read from bytes, unless a fuse has another level than the one that the device fixes.
fn in_mode<D: Device>(
    alloc: Global,
    device: &Loaded<D>,
    bytes: &[u8],
    file: FuseFile,
) -> Result<Taken, OutOfMemory>
    requires within { length bytes.now ≤ limit }
    requires read { file_of D.table bytes.now ≡ Ok (contents D.table file) }
    requires fuses { length file.fuses ≡ D.table.fuses }
    ensures { IfOk result (IsTaken D.table bytes.now) }
{
    match wrong_fuse::<D>(device, &file.fuses) {
        None => Ok(Taken::File(file)),
        Some(fuse) => Ok(Taken::Refused(wrong_mode_line(alloc, fuse)?)),
    }
}

/// The fuse file that bytes within the limit are, or the line on why they aren't one.
pub fn take_file<D: Device>(
    alloc: Global,
    device: &Loaded<D>,
    bytes: &[u8],
) -> Result<Taken, OutOfMemory>
    requires { length bytes.now ≤ limit }
    ensures { IfOk result (IsTaken D.table bytes.now) }
{
    match read::<D>(alloc, device, bytes) {
        Ok(file) => in_mode::<D>(alloc, device, bytes, file),
        Err(fault) => Ok(Taken::Refused(fault_line(alloc, bytes, &fault)?)),
    }
}
