//! What the vectors of a fuse file amount to.

ghost use Rattle.std.specs.Prelude.{◌≡◌, ◌<◌, ◌^◌, length};

use abel_commands::run_lines::run_lines;
use abel_commands::sim_fault_line::sim_fault_line;
use jedec_reader::FuseFile;
use page_model::{RunModel, run_of};
use pld_base::OutOfMemory;
use pld_device::{Device, Loaded};
use std::alloc::Global;

/// What the vectors of a fuse file gave, or the line on why they were not run.
#[derive(Drop)]
pub enum Outcome {
    Ran(RunModel),
    NotRun(Vec<u8>),
}

/// Runs the vectors of a fuse file.
pub fn outcome_of<D: Device>(
    alloc: Global,
    device: &Loaded<D>,
    file: &FuseFile,
) -> Result<Outcome, OutOfMemory>
    requires fuses { length file.now.fuses ≡ D.table.fuses }
    requires few { length file.now.vectors < 2 ^ 32 }
{
    match run_of::<D>(alloc, device, file) {
        Ok(run) => Ok(Outcome::Ran(run)),
        Err(fault) => Ok(Outcome::NotRun(sim_fault_line(alloc, &fault)?)),
    }
}

impl Outcome {
    /// The status that `simulate` ends with. Takes no memory.
    pub fn status(&self) -> u8 {
        match self {
            Outcome::NotRun(_) => 4,
            Outcome::Ran(run) if run.report.list.as_slice().is_empty() => 0,
            Outcome::Ran(_) => 5,
        }
    }

    /// The lines of `simulate`.
    pub fn lines<D: Device>(
        &self,
        alloc: Global,
        device: &Loaded<D>,
    ) -> Result<Vec<u8>, OutOfMemory> {
        match self {
            Outcome::NotRun(line) => Ok(Vec::from_slice(alloc, line)?),
            Outcome::Ran(run) => run_lines::<D>(alloc, device, &run.report),
        }
    }
}
