//! `compare FROM A TO B`.

ghost use Rattle.std.specs.Prelude.{◌≡◌, ◌≤◌, ℕ, IfOk, List, length};
ghost use Rattle.pair_commands.specs.Prelude.{contents, ending_seen, limit, table_at};
ghost use Rattle.fuse_reports.specs.FuseFiles.{IsFileOf};
ghost use Rattle.pair_commands.specs.CompareCommand.{CompareEnds, PairCompareEnds};
ghost use Rattle.fuse_porting.specs.Pairs.{IsPair};

use crate::differ_line::differ_line;
use crate::pair_lines::{same_line, unported_line};
use devices::loaded_at;
use fuse_porting::{Pair, compare_across, pair_of};
use fuse_reports::{Ending, Taken, sim_fault_line, take_file};
use jedec_reader::FuseFile;
use pld_base::{DeviceName, OutOfMemory};
use pld_device::{Device, Loaded};
use std::alloc::Global;
use std::marker::Brand;

/// How `compare` ends with two fuse files, each of its device.
fn ending_of<'a, F: Device, T: Device>(
    alloc: Global,
    device: &Loaded<F>,
    other: &Loaded<T>,
    first: &FuseFile,
    second: &FuseFile,
) -> Result<Ending<'a>, OutOfMemory>
    requires pair { IsPair F.table T.table }
    requires first { length first.now.fuses ≡ F.table.fuses }
    requires second { length second.now.fuses ≡ T.table.fuses }
    ensures { (a b : List ℕ) → IsFileOf F.table a (contents F.table first.now)
        → IsFileOf T.table b (contents T.table second.now)
        → IfOk result (λ e. PairCompareEnds F.table T.table a b (ending_seen e)) }
{
    match compare_across::<F, T>(alloc, device, other, &first.fuses, &second.fuses) {
        Ok(None) => Ok(Ending::plain(0, same_line(alloc, device.name(), other.name())?)),
        Ok(Some(state)) => Ok(Ending::plain(5, differ_line::<F, T>(alloc, device, other, &state)?)),
        Err(fault) => Ok(Ending::plain(4, sim_fault_line(alloc, &fault)?)),
    }
}

/// How `compare` ends with the bytes of two files, as fuse files of the devices of a pair.
fn ending_for<'a, F: Device, T: Device>(
    alloc: Global,
    pair: Pair,
    a: &[u8],
    b: &[u8],
) -> Result<Ending<'a>, OutOfMemory>
    requires table { table_at pair.from ≡ F.table }
    requires other_table { table_at pair.to ≡ T.table }
    requires pair { IsPair F.table T.table }
    requires first { length a.now ≤ limit }
    requires second { length b.now ≤ limit }
    ensures { IfOk result (λ e. PairCompareEnds F.table T.table a.now b.now (ending_seen e)) }
{
    let device = loaded_at::<F>(pair.from);
    let other = loaded_at::<T>(pair.to);
    let first = match take_file::<F>(alloc, &device, a)? {
        Taken::File(file) => file,
        Taken::Refused(line) => return Ok(Ending::plain(4, line)),
    };
    let second = match take_file::<T>(alloc, &other, b)? {
        Taken::File(file) => file,
        Taken::Refused(line) => return Ok(Ending::plain(4, line)),
    };
    ending_of::<F, T>(alloc, &device, &other, &first, &second)
}

/// The same for two devices of these names.
pub fn compare_ending<'a>(
    alloc: Global,
    from: DeviceName,
    to: DeviceName,
    a: &[u8],
    b: &[u8],
) -> Result<Ending<'a>, OutOfMemory>
    requires first { length a.now ≤ limit }
    requires second { length b.now ≤ limit }
    ensures { IfOk result (λ e. CompareEnds from to a.now b.now (ending_seen e)) }
{
    match pair_of(from, to) {
        Some(pair) => ending_for::<Brand, Brand>(alloc, pair, a, b),
        None => Ok(Ending::plain(3, unported_line(alloc, from, to)?)),
    }
}
