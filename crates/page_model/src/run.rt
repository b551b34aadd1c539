//! What the vectors of a fuse file gave, as a page shows it.

ghost use Rattle.std.specs.Prelude.{◌≡◌, ◌<◌, ◌^◌, IfOk, flat_map, length};
ghost use Rattle.device_sim.specs.Simulated.{IsSimulated, IsTheOnlyList};
ghost use Rattle.device_sim.specs.Traced.{IsTraced};
ghost use Rattle.jedec_reader.specs.Contents.{contents};
ghost use Rattle.pld_device.specs.Macrocells.{device_logic};
ghost use Rattle.page_model.specs.Phases.{phases};

use crate::phases::phases_of;
use device_logic::SimFault;
use device_sim::{Report, simulate, traces};
use jedec_reader::FuseFile;
use pld_base::{ListOf, OutOfMemory, Trace};
use pld_device::{Device, Fuses, Loaded};
use std::alloc::Global;

/// What the vectors of a fuse file gave: how many there are, the disagreements, and what the pins show at each point of the
/// vectors.
#[derive(Drop)]
pub struct RunModel {
    pub report: Report,
    pub shown: ListOf<Trace>,
}

/// The file with the points of its vectors in place of its vectors.
fn in_points<D: Device>(
    alloc: Global,
    device: &Loaded<D>,
    file: &FuseFile,
) -> Result<FuseFile, OutOfMemory>
    ensures fuses { IfOk result (λ f. f.fuses ≡ file.now.fuses) }
    ensures level { IfOk result (λ f. f.default_level ≡ file.now.default_level) }
    ensures vectors { IfOk result (λ f. (contents D.table f).vectors
        ≡ flat_map phases (contents D.table file.now).vectors) }
{
    let points = phases_of::<D>(alloc, device, file.vectors.as_slice())?;
    Ok(FuseFile {
        fuses: Fuses::from_levels(file.fuses.levels().to_vec(alloc)?),
        listed: file.listed,
        vectors: ListOf::from_vec(points),
        default_level: file.default_level,
    })
}

/// What the pins show at each point of the vectors of a fuse file.
fn shown_at<D: Device>(
    alloc: Global,
    device: &Loaded<D>,
    file: &FuseFile,
) -> Result<ListOf<Trace>, SimFault>
    requires { length file.now.fuses ≡ D.table.fuses }
    ensures { IfOk result (λ shown. IsTraced (device_logic D.table file.now.fuses) file.now.default_level
        (flat_map phases (contents D.table file.now).vectors) shown) }
{
    let points = in_points::<D>(alloc, device, file)?;
    traces::<D>(alloc, device, &points, points.vectors.as_slice().len())
}

/// What the vectors of a fuse file give, and what the pins show at each point of them.
///
/// # Errors
/// Those of `simulate`.
pub fn run_of<D: Device>(
    alloc: Global,
    device: &Loaded<D>,
    file: &FuseFile,
) -> Result<RunModel, SimFault>
    requires size { length file.now.fuses ≡ D.table.fuses }
    requires few { length file.now.vectors < 2 ^ 32 }
    ensures simulated { IfOk result (λ run. IsSimulated D.table (contents D.table file.now) run.report) }
    ensures only { IfOk result (λ run. IsTheOnlyList D.table (contents D.table file.now) run.report.list) }
    ensures shown { IfOk result (λ run. IsTraced (device_logic D.table file.now.fuses) file.now.default_level
        (flat_map phases (contents D.table file.now).vectors) run.shown) }
{
    Ok(RunModel {
        report: simulate::<D>(alloc, device, file)?,
        shown: shown_at::<D>(alloc, device, file)?,
    })
}
