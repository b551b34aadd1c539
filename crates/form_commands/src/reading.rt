//! `read DEVICE IN OUT [mend]`.

ghost use Rattle.std.specs.Prelude.{◌≡◌, ◌≤◌, ℕ, Bool, IfOk, List, length};
ghost use Rattle.form_commands.specs.Dumps.{IsDump};
ghost use Rattle.form_commands.specs.Prelude.{contents, ending_seen, limit, table_of};
ghost use Rattle.form_commands.specs.Reading.{ReadEnds};

use crate::dump::{Dump, Way};
use crate::dump_lines::dump_report;
use crate::taking::dump_of;
use crate::target::Target;
use devices::loaded;
use fuse_forms::written;
use fuse_reports::{Ending, Output};
use jedec_reader::FuseFile;
use pld_base::{DeviceName, OutOfMemory};
use pld_device::{Device, Loaded};
use std::alloc::Global;
use std::marker::Brand;

/// How `read` ends with the fuse file that a dump says.
fn file_ending<'a, D: Device>(
    alloc: Global,
    device: &Loaded<D>,
    output: &'a str,
    file: &FuseFile,
    how: &Way,
) -> Result<Ending<'a>, OutOfMemory>
    requires { table_of D.table.name ≡ D.table }
    ensures { (mends : Bool) (bytes : List ℕ)
        → IsDump D.table mends bytes how.now (contents D.table file.now)
        → IfOk result (λ e. ReadEnds D.table mends output.now bytes (ending_seen e)) }
{
    let Some(bytes) = written::<D>(alloc, device, file, false)? else {
        return Ok(Ending::plain(4, Vec::from_slice(alloc, b"error TooLong\n")?));
    };
    Ok(Ending {
        status: 0,
        text: dump_report::<D>(alloc, device, how, file)?,
        output: Some(Output {
            name: output,
            bytes,
        }),
    })
}

/// How `read` ends with bytes as a dump of the device of this name.
fn ending_for<'a, D: Device>(
    alloc: Global,
    name: DeviceName,
    mends: bool,
    output: Target<'a>,
    bytes: &[u8],
) -> Result<Ending<'a>, OutOfMemory>
    requires table { table_of name ≡ D.table }
    requires within { length bytes.now ≤ limit }
    ensures { IfOk result (λ e. ReadEnds D.table mends output.entry.name.now bytes.now (ending_seen e)) }
{
    let device = loaded::<D>(name);
    let dump = dump_of::<D>(alloc, &device, mends, bytes)?;
    match dump {
        Dump::File { file, how } => file_ending::<D>(alloc, &device, output.name, &file, &how),
        Dump::Refused(line) => Ok(Ending::plain(4, line)),
    }
}

/// The same for each name; a chip with modes is in the mode that the fuses say.
pub fn read_ending<'a>(
    alloc: Global,
    device: DeviceName,
    mends: bool,
    output: &'a str,
    bytes: &[u8],
) -> Result<Ending<'a>, OutOfMemory>
    requires { length bytes.now ≤ limit }
    ensures { IfOk result
        (λ e. ReadEnds (table_of device) mends output.now bytes.now (ending_seen e)) }
{
    ending_for::<Brand>(alloc, device, mends, Target { name: output }, bytes)
}
