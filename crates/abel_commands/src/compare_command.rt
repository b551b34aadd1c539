//! `compare DEVICE A B`.

ghost use Rattle.std.specs.Prelude.{◌≡◌, ◌≤◌, ℕ, IfOk, List, length};
ghost use Rattle.abel_commands.specs.Prelude.{contents, file_table, table_at};
ghost use Rattle.abel_commands.specs.Limit.{limit};
ghost use Rattle.abel_commands.specs.CompareCommand.{CompareEnds};
ghost use Rattle.abel_commands.specs.FuseFiles.{IsFileOf};
ghost use Rattle.abel_commands.specs.View.{ending_seen};

use crate::compared_line::{differ_line, same_line};
use crate::ending::Ending;
use crate::sim_fault_line::sim_fault_line;
use crate::taken::{Taken, take_file};
use devices::loaded_at;
use file_models::model_of;
use fuse_compare::compare;
use jedec_reader::FuseFile;
use pld_base::{DeviceName, Model, OutOfMemory};
use pld_device::{Device, Loaded};
use std::alloc::Global;
use std::marker::Brand;

/// How `compare` ends with two fuse files.
fn ending_of<'a, D: Device>(
    alloc: Global,
    device: &Loaded<D>,
    first: &FuseFile,
    second: &FuseFile,
) -> Result<Ending<'a>, OutOfMemory>
    requires first { length first.now.fuses ≡ D.table.fuses }
    requires second { length second.now.fuses ≡ D.table.fuses }
    ensures { (a b : List ℕ) → IsFileOf D.table a (contents D.table first.now)
        → IsFileOf D.table b (contents D.table second.now)
        → IfOk result (λ e. CompareEnds D.table a b (ending_seen e)) }
{
    match compare::<D>(alloc, device, &first.fuses, &second.fuses) {
        Ok(None) => Ok(Ending::plain(0, same_line::<D>(alloc, device)?)),
        Ok(Some(state)) => Ok(Ending::plain(5, differ_line::<D>(alloc, device, &state)?)),
        Err(fault) => Ok(Ending::plain(4, sim_fault_line(alloc, &fault)?)),
    }
}

/// How `compare` ends with the bytes of two files as fuse files of the device of this model.
fn ending_for<'a, D: Device>(
    alloc: Global,
    model: Model,
    a: &[u8],
    b: &[u8],
) -> Result<Ending<'a>, OutOfMemory>
    requires table { table_at model ≡ D.table }
    requires first { length a.now ≤ limit }
    requires second { length b.now ≤ limit }
    ensures { IfOk result (λ e. CompareEnds D.table a.now b.now (ending_seen e)) }
{
    let device = loaded_at::<D>(model);
    let first = match take_file::<D>(alloc, &device, a)? {
        Taken::File(file) => file,
        Taken::Refused(line) => return Ok(Ending::plain(4, line)),
    };
    let second = match take_file::<D>(alloc, &device, b)? {
        Taken::File(file) => file,
        Taken::Refused(line) => return Ok(Ending::plain(4, line)),
    };
    ending_of::<D>(alloc, &device, &first, &second)
}

/// The same for each name, in the mode that the fuses of the first file say.
pub fn compare_ending<'a>(
    alloc: Global,
    device: DeviceName,
    a: &[u8],
    b: &[u8],
) -> Result<Ending<'a>, OutOfMemory>
    requires first { length a.now ≤ limit }
    requires second { length b.now ≤ limit }
    ensures { IfOk result (λ e. CompareEnds (file_table device a.now) a.now b.now (ending_seen e)) }
{
    let model = model_of(alloc, device, a)?;
    ending_for::<Brand>(alloc, model, a, b)
}
