//! The page of a fuse file.

ghost use Rattle.std.specs.Prelude.{◌≡◌, ◌≤◌, ◌<◌, ◌^◌, length};
ghost use Rattle.abel_commands.specs.Limit.{limit};
ghost use Rattle.devices.specs.Models.{table_at};

use crate::drawn::drawn_page;
use crate::head::Parts;
use crate::made::{Input, Made, without_end};
use crate::outcome::outcome_of;
use crate::pin_names::pin_names;
use abel_commands::checked_line::checked_line;
use abel_commands::{Taken, read_files_have_few_vectors, take_file};
use design_drawings::Design;
use devices::loaded_at;
use file_models::model_of;
use jedec_reader::FuseFile;
use page_model::page_model_of;
use pld_base::{DeviceName, Model, OutOfMemory};
use pld_device::{Device, Loaded};
use std::alloc::Global;
use std::marker::Brand;

/// What results from a fuse file that is read.
fn made_of<D: Device>(
    alloc: Global,
    device: &Loaded<D>,
    input: Input,
    file: &FuseFile,
) -> Result<Made, OutOfMemory>
    requires fuses { length file.now.fuses ≡ D.table.fuses }
    requires few { length file.now.vectors < 2 ^ 32 }
{
    let outcome = outcome_of::<D>(alloc, device, file)?;
    let names = pin_names::<D>(alloc, device, file)?;
    let checked = checked_line::<D>(alloc, device, file)?;
    let model = page_model_of::<D>(alloc, device, &names, &file.fuses)?;
    let design = Design {
        alloc,
        names: &names,
        file,
        model: &model,
    };
    let parts = Parts {
        name: input.name,
        title: b"",
        summary: without_end(&checked),
        file_name: input.name,
        file: input.bytes,
        source: b"",
        lines: &[],
        warnings: b"",
    };
    Ok(Made {
        status: outcome.status(),
        report: outcome.lines::<D>(alloc, device)?,
        page: Some(drawn_page::<D>(device, design, parts, &outcome)?),
    })
}

/// What results from bytes as a fuse file of the device of this model.
fn made_for<D: Device>(alloc: Global, model: Model, input: Input) -> Result<Made, OutOfMemory>
    requires table { table_at model ≡ D.table }
    requires within { length input.bytes.now ≤ limit }
{
    read_files_have_few_vectors();
    let device = loaded_at::<D>(model);
    let taken = take_file::<D>(alloc, &device, input.bytes)?;
    match taken {
        Taken::File(file) => made_of::<D>(alloc, &device, input, &file),
        Taken::Refused(line) => Made::told(alloc, 4, &[&line]),
    }
}

/// What results from a fuse file of a device: its page, and how `simulate` ends with it.
pub fn page_of_file(alloc: Global, device: DeviceName, input: Input) -> Result<Made, OutOfMemory>
    requires { length input.bytes.now ≤ limit }
{
    let model = model_of(alloc, device, input.bytes)?;
    made_for::<Brand>(alloc, model, input)
}
