//! `demo N`.

ghost use Rattle.std.specs.Prelude.{◌≡◌, ◌<◌, ◌≤◌, ◌^◌, ℕ, Bool, List, IfOk, Ok, length};
ghost use Rattle.abel_commands.specs.Prelude.{CanBeSimulated, IsSimulated, IsTheOnlyList, file_of, contents, summary_of, table_at};
ghost use Rattle.abel_commands.specs.DemoCommand.{CanBeRun, DemoEnds, DemoEndsWithin, FileEnds};
ghost use Rattle.abel_commands.specs.Limit.{limit};
ghost use Rattle.abel_commands.specs.View.{ending_seen};

use crate::demo_line::{cells_told, demo_line};
use crate::ending::{Ending, line};
use crate::source_commands::refused_ending;
use crate::sources::LIMIT;
use abel_compile::compile;
use demo_source::demo_text;
use device_sim::{Report, SimFault, simulate};
use devices::loaded_at;
use jedec_file::{JedecFault, fuse_sum};
use jedec_reader::{FuseFile, read};
use pld_base::{Model, OutOfMemory};
use pld_device::{Device, Loaded};
use std::alloc::Global;
use std::marker::Brand;

/// The fuse file of a compiled source, read back.
fn read_back<D: Device>(
    alloc: Global,
    device: &Loaded<D>,
    bytes: &[u8],
) -> Result<FuseFile, OutOfMemory>
    requires { CanBeRun D.table bytes.now }
    ensures file { IfOk result (λ file. file_of D.table bytes.now ≡ Ok (contents D.table file)) }
    ensures fuses { IfOk result (λ file. length file.fuses ≡ D.table.fuses) }
    ensures can { IfOk result (λ file. CanBeSimulated D.table (contents D.table file)) }
{
    match read::<D>(alloc, device, bytes) {
        Ok(file) => Ok(file),
        Err(JedecFault::OutOfMemory) => Err(OutOfMemory),
        Err(_) => unreachable!(),
    }
}

/// The run of a fuse file's vectors on the device with its fuses.
fn run_of<D: Device>(
    alloc: Global,
    device: &Loaded<D>,
    file: &FuseFile,
) -> Result<Report, OutOfMemory>
    requires size { length file.now.fuses ≡ D.table.fuses }
    requires few { length file.now.vectors < 2 ^ 32 }
    requires can { CanBeSimulated D.table (contents D.table file.now) }
    ensures simulated { IfOk result (λ r. IsSimulated D.table (contents D.table file.now) r) }
    ensures only { IfOk result (λ r. IsTheOnlyList D.table (contents D.table file.now) r.list) }
{
    match simulate::<D>(alloc, device, file) {
        Ok(report) => Ok(report),
        Err(fault) => match fault {
            SimFault::OutOfMemory => Err(OutOfMemory),
            _ => unreachable!(),
        },
    }
}

/// How a demo ends with the fuse file and the summary of its source, for this device in its mode: the file is read back, and
/// its vectors are run.
fn ending_for<'a, D: Device>(
    alloc: Global,
    seed: u16,
    device: Model,
    bytes: &[u8],
    summary: &[u8],
) -> Result<Ending<'a>, OutOfMemory>
    requires table { table_at device ≡ D.table }
    requires can { CanBeRun D.table bytes.now }
    ensures { (cells : ℕ) (fuses : List Bool) → cells < 2 ^ 64 → summary.now ≡ summary_of D.table cells fuses
        → IfOk result (λ e. FileEnds seed cells D.table bytes.now (ending_seen e)) }
{
    let device = loaded_at::<D>(device);
    let file = read_back::<D>(alloc, &device, bytes)?;
    let report = run_of::<D>(alloc, &device, &file)?;
    let cells = cells_told::<D>(&device, summary);
    let line = demo_line(alloc, seed, cells, &report, fuse_sum(file.fuses.levels()))?;
    if report.list.as_slice().is_empty() {
        Ok(Ending::plain(0, line))
    } else {
        Ok(Ending::plain(5, line))
    }
}

/// How a demo ends with its source: it is compiled, and the fuse file is run.
fn source_ending<'a>(alloc: Global, seed: u16, source: &[u8]) -> Result<Ending<'a>, OutOfMemory>
    requires { length source.now ≤ limit }
    ensures { IfOk result (λ e. DemoEndsWithin seed source.now (ending_seen e)) }
{
    match compile(alloc, source) {
        Ok(compiled) => ending_for::<Brand>(
            alloc,
            seed,
            compiled.device,
            &compiled.file,
            &compiled.summary,
        ),
        Err(fault) => refused_ending(fault),
    }
}

/// How `demo` ends with a number: its source is made, and then compiled.
pub fn demo_ending<'a>(alloc: Global, seed: u16) -> Result<Ending<'a>, OutOfMemory>
    ensures { IfOk result (λ e. DemoEnds seed (ending_seen e)) }
{
    let text = demo_text(alloc, seed)?;
    if text.len() > LIMIT {
        return Ok(Ending::plain(2, line(alloc, b"error TooLong", b"")?));
    }
    source_ending(alloc, seed, &text)
}
