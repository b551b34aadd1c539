//! `write DEVICE IN OUT FORM [sign TEXT] [secured]`.

ghost use Rattle.std.specs.Prelude.{◌≡◌, ◌≤◌, ℕ, IfOk, List, length};
ghost use Rattle.devices.specs.Models.{table_at};
ghost use Rattle.file_models.specs.FileModels.{file_table};
ghost use Rattle.form_commands.specs.Prelude.{IsFileOf, contents, ending_seen, limit};
ghost use Rattle.form_commands.specs.Writing.{IsWanted, WriteEnds, wanted_seen};

use crate::form_lines::{no_form_line, no_signature_line, wrote_line};
use crate::target::Target;
use crate::wanted::Wanted;
use devices::loaded_at;
use file_models::model_of;
use fuse_forms::{in_form, signature_of, signed_file};
use fuse_reports::{Ending, Output, Taken, take_file};
use jedec_reader::FuseFile;
use pld_base::{DeviceName, Model, OutOfMemory};
use pld_device::{Device, Loaded};
use std::alloc::Global;
use std::marker::Brand;

/// How `write` ends with the file that is to be written.
fn form_ending<'a, D: Device>(
    alloc: Global,
    device: &Loaded<D>,
    wanted: Wanted<'a>,
    output: &'a str,
    file: &FuseFile,
) -> Result<Ending<'a>, OutOfMemory>
    ensures { (bytes : List ℕ)
        → IsWanted D.table (wanted_seen wanted.entry) bytes (contents D.table file.now)
        → IfOk result
        (λ e. WriteEnds D.table (wanted_seen wanted.entry) output.now bytes (ending_seen e)) }
{
    let found = in_form::<D>(alloc, device, file, wanted.form, wanted.secured)?;
    match found {
        None => Ok(Ending::plain(3, no_form_line::<D>(alloc, device, wanted.form)?)),
        Some(bytes) => Ok(Ending {
            status: 0,
            text: wrote_line(alloc, wanted.form, bytes.len())?,
            output: Some(Output {
                name: output,
                bytes,
            }),
        }),
    }
}

/// How `write` ends with the fuse file of a device, which is signed first if that is wanted.
fn signed_ending<'a, D: Device>(
    alloc: Global,
    device: &Loaded<D>,
    wanted: Wanted<'a>,
    output: &'a str,
    file: &FuseFile,
) -> Result<Ending<'a>, OutOfMemory>
    ensures { (bytes : List ℕ) → IsFileOf D.table bytes (contents D.table file.now)
        → IfOk result
        (λ e. WriteEnds D.table (wanted_seen wanted.entry) output.now bytes (ending_seen e)) }
{
    let Some(text) = wanted.signature else {
        return form_ending::<D>(alloc, device, wanted, output, file);
    };
    let Some(first) = signature_of(device.name()) else {
        return Ok(Ending::plain(3, no_signature_line::<D>(alloc, device)?));
    };
    let file = signed_file(alloc, file, first, text.as_bytes())?;
    form_ending::<D>(alloc, device, wanted, output, &file)
}

/// How `write` ends with bytes as a fuse file of the device of this model.
fn ending_for<'a, D: Device>(
    alloc: Global,
    model: Model,
    wanted: Wanted<'a>,
    output: Target<'a>,
    bytes: &[u8],
) -> Result<Ending<'a>, OutOfMemory>
    requires table { table_at model ≡ D.table }
    requires within { length bytes.now ≤ limit }
    ensures { IfOk result (λ e.
        WriteEnds D.table (wanted_seen wanted.entry) output.entry.name.now bytes.now (ending_seen e)) }
{
    let device = loaded_at::<D>(model);
    let taken = take_file::<D>(alloc, &device, bytes)?;
    match taken {
        Taken::File(file) => signed_ending::<D>(alloc, &device, wanted, output.name, &file),
        Taken::Refused(line) => Ok(Ending::plain(4, line)),
    }
}

/// The same for each name, in the mode that the fuses say.
pub fn write_ending<'a>(
    alloc: Global,
    device: DeviceName,
    wanted: Wanted<'a>,
    output: &'a str,
    bytes: &[u8],
) -> Result<Ending<'a>, OutOfMemory>
    requires { length bytes.now ≤ limit }
    ensures { IfOk result (λ e. WriteEnds (file_table device bytes.now) (wanted_seen wanted.entry)
        output.now bytes.now (ending_seen e)) }
{
    let model = model_of(alloc, device, bytes)?;
    ending_for::<Brand>(alloc, model, wanted, Target { name: output }, bytes)
}
