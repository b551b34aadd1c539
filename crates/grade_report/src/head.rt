//! The beginning of the last line.

ghost use Rattle.std.specs.Prelude.{◌≡◌, ◌++◌, OnOk};
ghost use Rattle.grade_report.specs.Report.{head_text};

use fuse_reports::put_numbered;
use pld_base::OutOfMemory;
use pld_device::{Device, Loaded};
use std::alloc::Global;

/// Appends a word, the device and how many vectors there are.
pub fn put_head<D: Device>(
    alloc: Global,
    device: &Loaded<D>,
    text: &mut Vec<u8>,
    word: &[u8],
    vectors: usize,
) -> Result<(), OutOfMemory>
    ensures { OnOk result (text.new.items
        ≡ text.old.items ++ head_text D.table word.now vectors) }
{
    text.extend_from_slice(word)?;
    text.extend_from_slice(device.name().text().as_bytes())?;
    put_numbered(alloc, text, b" vectors ", vectors)?;
    Ok(())
}
