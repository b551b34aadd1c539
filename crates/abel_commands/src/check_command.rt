//! `check DEVICE IN`.

ghost use Rattle.std.specs.Prelude.{◌≡◌, ◌≤◌, IfOk, length};
ghost use Rattle.abel_commands.specs.Prelude.{file_table, table_at};
ghost use Rattle.abel_commands.specs.CheckCommand.{CheckEnds};
ghost use Rattle.abel_commands.specs.Limit.{limit};
ghost use Rattle.abel_commands.specs.View.{ending_seen};

use crate::checked_line::checked_line;
use crate::ending::Ending;
use crate::taken::{Taken, take_file};
use devices::loaded_at;
use file_models::model_of;
use pld_base::{DeviceName, Model, OutOfMemory};
use pld_device::Device;
use std::alloc::Global;
use std::marker::Brand;

/// How `check` ends with bytes as a fuse file of the device of this model.
fn ending_for<'a, D: Device>(
    alloc: Global,
    model: Model,
    bytes: &[u8],
) -> Result<Ending<'a>, OutOfMemory>
    requires table { table_at model ≡ D.table }
    requires within { length bytes.now ≤ limit }
    ensures { IfOk result (λ e. CheckEnds D.table bytes.now (ending_seen e)) }
{
    let device = loaded_at::<D>(model);
    match take_file::<D>(alloc, &device, bytes)? {
        Taken::File(file) => Ok(Ending::plain(0, checked_line::<D>(alloc, &device, &file)?)),
        Taken::Refused(line) => Ok(Ending::plain(4, line)),
    }
}

/// The same for each name, in the mode that the fuses say.
pub fn check_ending<'a>(
    alloc: Global,
    device: DeviceName,
    bytes: &[u8],
) -> Result<Ending<'a>, OutOfMemory>
    requires { length bytes.now ≤ limit }
    ensures { IfOk result (λ e. CheckEnds (file_table device bytes.now) bytes.now (ending_seen e)) }
{
    let model = model_of(alloc, device, bytes)?;
    ending_for::<Brand>(alloc, model, bytes)
}
