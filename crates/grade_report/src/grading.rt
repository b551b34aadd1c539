//! `grade DEVICE IN`.

ghost use Rattle.std.specs.Prelude.{◌≡◌, ◌≤◌, IfOk, length};
ghost use Rattle.devices.specs.Models.{table_at};
ghost use Rattle.file_models.specs.FileModels.{file_table};
ghost use Rattle.fuse_reports.specs.Ending.{limit};
ghost use Rattle.fuse_reports.specs.FuseFiles.{IsFileOf};
ghost use Rattle.fuse_reports.specs.View.{ending_seen};
ghost use Rattle.jedec_reader.specs.Contents.{contents};
ghost use Rattle.grade_report.specs.Grading.{GradeEnds};

use crate::reporting::{grade_report, grade_status};
use devices::loaded_at;
use file_models::model_of;
use fuse_reports::{Ending, Taken, sim_fault_line, take_file};
use jedec_reader::FuseFile;
use pld_base::{DeviceName, Model, OutOfMemory};
use pld_device::{Device, Loaded};
use std::alloc::Global;
use std::marker::Brand;
use wrong_fuses::judge;

/// How `grade` ends with the fuse file that bytes are.
fn ending_of<'a, D: Device>(
    alloc: Global,
    device: &Loaded<D>,
    bytes: &[u8],
    file: &FuseFile,
) -> Result<Ending<'a>, OutOfMemory>
    requires file { IsFileOf D.table bytes.now (contents D.table file.now) }
    requires fuses { length file.now.fuses ≡ D.table.fuses }
    ensures { IfOk result (λ e. GradeEnds D.table bytes.now (ending_seen e)) }
{
    let grade = match judge::<D>(alloc, device, file) {
        Ok(grade) => grade,
        Err(fault) => return Ok(Ending::plain(4, sim_fault_line(alloc, &fault)?)),
    };
    let report = grade_report::<D>(alloc, device, &grade)?;
    Ok(Ending::plain(grade_status(&grade), report))
}

/// How `grade` ends with bytes as a fuse file of the device of this model.
fn ending_for<'a, D: Device>(
    alloc: Global,
    model: Model,
    bytes: &[u8],
) -> Result<Ending<'a>, OutOfMemory>
    requires table { table_at model ≡ D.table }
    requires within { length bytes.now ≤ limit }
    ensures { IfOk result (λ e. GradeEnds D.table bytes.now (ending_seen e)) }
{
    let device = loaded_at::<D>(model);
    match take_file::<D>(alloc, &device, bytes)? {
        Taken::File(file) => ending_of::<D>(alloc, &device, bytes, &file),
        Taken::Refused(line) => Ok(Ending::plain(4, line)),
    }
}

/// The same for each name, in the mode that the fuses say.
pub fn grade_ending<'a>(
    alloc: Global,
    device: DeviceName,
    bytes: &[u8],
) -> Result<Ending<'a>, OutOfMemory>
    requires { length bytes.now ≤ limit }
    ensures { IfOk result (λ e. GradeEnds (file_table device bytes.now) bytes.now (ending_seen e)) }
{
    let model = model_of(alloc, device, bytes)?;
    ending_for::<Brand>(alloc, model, bytes)
}
