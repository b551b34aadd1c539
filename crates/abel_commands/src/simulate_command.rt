//! `simulate DEVICE IN`.

ghost use Rattle.std.specs.Prelude.{◌≡◌, ◌≤◌, IfOk, length};
ghost use Rattle.abel_commands.specs.Prelude.{contents, file_table, table_at};
ghost use Rattle.abel_commands.specs.Limit.{limit};
ghost use Rattle.abel_commands.specs.SimulateCommand.{SimulateEnds};
ghost use Rattle.abel_commands.specs.View.{ending_seen};
ghost use Rattle.abel_commands.specs.FuseFiles.{IsFileOf};

use crate::ending::Ending;
use crate::run_lines::run_lines;
use crate::sim_fault_line::sim_fault_line;
use crate::taken::{Taken, take_file};
use device_sim::simulate;
use devices::loaded_at;
use file_models::model_of;
use jedec_reader::FuseFile;
use pld_base::{DeviceName, Model, OutOfMemory};
use pld_device::{Device, Loaded};
use std::alloc::Global;
use std::marker::Brand;

/// How `simulate` ends with the fuse file that bytes are.
fn ending_of<'a, D: Device>(
    alloc: Global,
    device: &Loaded<D>,
    bytes: &[u8],
    file: &FuseFile,
) -> Result<Ending<'a>, OutOfMemory>
    requires file { IsFileOf D.table bytes.now (contents D.table file.now) }
    requires fuses { length file.now.fuses ≡ D.table.fuses }
    ensures { IfOk result (λ e. SimulateEnds D.table bytes.now (ending_seen e)) }
{
    let report = match simulate::<D>(alloc, device, file) {
        Ok(report) => report,
        Err(fault) => return Ok(Ending::plain(4, sim_fault_line(alloc, &fault)?)),
    };
    let lines = run_lines::<D>(alloc, device, &report)?;
    if report.list.as_slice().is_empty() {
        Ok(Ending::plain(0, lines))
    } else {
        Ok(Ending::plain(5, lines))
    }
}

/// How `simulate` ends with bytes as a fuse file of the device of this model.
fn ending_for<'a, D: Device>(
    alloc: Global,
    model: Model,
    bytes: &[u8],
) -> Result<Ending<'a>, OutOfMemory>
    requires table { table_at model ≡ D.table }
    requires within { length bytes.now ≤ limit }
    ensures { IfOk result (λ e. SimulateEnds D.table bytes.now (ending_seen e)) }
{
    let device = loaded_at::<D>(model);
    match take_file::<D>(alloc, &device, bytes)? {
        Taken::File(file) => ending_of::<D>(alloc, &device, bytes, &file),
        Taken::Refused(line) => Ok(Ending::plain(4, line)),
    }
}

/// The same for each name, in the mode that the fuses say.
pub fn simulate_ending<'a>(
    alloc: Global,
    device: DeviceName,
    bytes: &[u8],
) -> Result<Ending<'a>, OutOfMemory>
    requires { length bytes.now ≤ limit }
    ensures { IfOk result (λ e. SimulateEnds (file_table device bytes.now) bytes.now (ending_seen e)) }
{
    let model = model_of(alloc, device, bytes)?;
    ending_for::<Brand>(alloc, model, bytes)
}
