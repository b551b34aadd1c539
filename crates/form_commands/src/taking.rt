//! The fuse file that a dump says, in whatever form.

ghost use Rattle.std.specs.Prelude.{true, false, ◌≡◌, ◌≤◌, IfOk, length};
ghost use Rattle.form_commands.specs.Dumps.{IsDumped, IsUnreadFile};
ghost use Rattle.form_commands.specs.Prelude.{gal22v10, is_binary, limit, table_of};

use crate::dump::{Dump, Way, in_mode};
use crate::dump_lines::{wrong_count_line, wrong_length_line};
use crate::longer::longer_dump;
use fuse_forms::{BinaryRead, binary_file, is_binary, repaired};
use fuse_reports::fault_line;
use jedec_reader::read;
use pld_base::{DeviceName, OutOfMemory};
use pld_device::{Device, Loaded};
use std::alloc::Global;

/// What bytes amount to that begin as the binary form does.
fn binary_dump<D: Device>(
    alloc: Global,
    device: &Loaded<D>,
    mends: bool,
    bytes: &[u8],
) -> Result<Dump, OutOfMemory>
    requires own { table_of D.table.name ≡ D.table }
    requires binary { is_binary bytes.now ≡ true }
    ensures { IfOk result (IsDumped D.table mends bytes.now) }
{
    let read = binary_file::<D>(alloc, device, bytes)?;
    match read {
        BinaryRead::File(file) => in_mode::<D>(alloc, device, file, Way::InBinary),
        BinaryRead::WrongCount(count) => Ok(Dump::Refused(wrong_count_line(alloc, count)?)),
        BinaryRead::WrongLength { read, wanted } => {
            Ok(Dump::Refused(wrong_length_line(alloc, read, wanted)?))
        }
    }
}

/// What bytes amount to that no repair makes a fuse file of a GAL22V10, and for which this is the line.
fn longer_or_refused(
    alloc: Global,
    mends: bool,
    bytes: &[u8],
    line: Vec<u8>,
) -> Result<Dump, OutOfMemory>
    requires text { is_binary bytes.now ≡ false }
    requires unread { IsUnreadFile gal22v10 bytes.now line.items }
    ensures { IfOk result (IsDumped gal22v10 mends bytes.now) }
{
    let longer = longer_dump(alloc, mends, bytes)?;
    match longer {
        None => Ok(Dump::Refused(line)),
        Some(dump) => Ok(dump),
    }
}

/// The same for each device.
fn unrepaired_dump<D: Device>(
    alloc: Global,
    device: &Loaded<D>,
    mends: bool,
    bytes: &[u8],
    line: Vec<u8>,
) -> Result<Dump, OutOfMemory>
    requires own { table_of D.table.name ≡ D.table }
    requires text { is_binary bytes.now ≡ false }
    requires unread { IsUnreadFile D.table bytes.now line.items }
    ensures { IfOk result (IsDumped D.table mends bytes.now) }
{
    match device.name() {
        DeviceName::GAL22V10 => longer_or_refused(alloc, mends, bytes, line),
        _ => Ok(Dump::Refused(line)),
    }
}

/// What bytes amount to that aren't read as a fuse file, for which this is the line.
fn unread_dump<D: Device>(
    alloc: Global,
    device: &Loaded<D>,
    mends: bool,
    bytes: &[u8],
    line: Vec<u8>,
) -> Result<Dump, OutOfMemory>
    requires own { table_of D.table.name ≡ D.table }
    requires text { is_binary bytes.now ≡ false }
    requires unread { IsUnreadFile D.table bytes.now line.items }
    ensures { IfOk result (IsDumped D.table mends bytes.now) }
{
    let repaired = repaired::<D>(alloc, device, bytes, mends)?;
    match repaired {
        Some(found) => in_mode::<D>(alloc, device, found.file, Way::Repaired(found.findings)),
        None => unrepaired_dump::<D>(alloc, device, mends, bytes, line),
    }
}

/// What bytes amount to that don't begin as the binary form does.
fn text_dump<D: Device>(
    alloc: Global,
    device: &Loaded<D>,
    mends: bool,
    bytes: &[u8],
) -> Result<Dump, OutOfMemory>
    requires own { table_of D.table.name ≡ D.table }
    requires text { is_binary bytes.now ≡ false }
    requires within { length bytes.now ≤ limit }
    ensures { IfOk result (IsDumped D.table mends bytes.now) }
{
    match read::<D>(alloc, device, bytes) {
        Ok(file) => in_mode::<D>(alloc, device, file, Way::AsFile),
        Err(fault) => {
            let line = fault_line(alloc, bytes, &fault)?;
            unread_dump::<D>(alloc, device, mends, bytes, line)
        }
    }
}

/// What bytes amount to. Sums are mended only if that is asked for.
pub fn dump_of<D: Device>(
    alloc: Global,
    device: &Loaded<D>,
    mends: bool,
    bytes: &[u8],
) -> Result<Dump, OutOfMemory>
    requires own { table_of D.table.name ≡ D.table }
    requires within { length bytes.now ≤ limit }
    ensures { IfOk result (IsDumped D.table mends bytes.now) }
{
    if is_binary(bytes) {
        binary_dump::<D>(alloc, device, mends, bytes)
    } else {
        text_dump::<D>(alloc, device, mends, bytes)
    }
}
