//! The line of the report on a fuse file that was checked.

ghost use Rattle.std.specs.Prelude.{◌≡◌, IfOk};
ghost use Rattle.fuse_reports.specs.Prelude.{contents};
ghost use Rattle.fuse_reports.specs.Checking.{checked_line};

use crate::numbered::put_numbered;
use jedec_file::fuse_sum;
use jedec_reader::FuseFile;
use pld_base::{OutOfMemory, put_hex};
use pld_device::{Device, Loaded};
use std::alloc::Global;

/// The line on a fuse file.
pub fn checked_line<D: Device>(
    alloc: Global,
    device: &Loaded<D>,
    file: &FuseFile,
) -> Result<Vec<u8>, OutOfMemory>
    ensures { IfOk result (λ line. line.items ≡ checked_line D.table (contents D.table file.now)) }
{
    let mut line = Vec::from_slice(alloc, b"checked ")?;
    line.extend_from_slice(device.name().text().as_bytes())?;
    put_numbered(alloc, &mut line, b" fuses ", usize::from(file.listed))?;
    put_numbered(alloc, &mut line, b" opened ", file.fuses.opened())?;
    line.extend_from_slice(b" sum ")?;
    put_hex(&mut line, fuse_sum(file.fuses.levels()))?;
    put_numbered(
        alloc,
        &mut line,
        b" vectors ",
        file.vectors.as_slice().len(),
    )?;
    line.push(b'\n')?;
    Ok(line)
}
