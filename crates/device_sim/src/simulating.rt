//! The run of a fuse file's vectors.

ghost use Rattle.std.specs.Prelude.{◌≡◌, ◌<◌, ◌^◌, length, IfOk, IfErr};
ghost use Rattle.device_sim.specs.Prelude.{contents};
ghost use Rattle.device_sim.specs.Simulated.{IsSimulated, IsSimFault, IsTheOnlyList};

use crate::chars::first_unsupported;
use crate::report::Report;
use crate::running::run_vectors;
use device_logic::{SimFault, load};
use jedec_reader::FuseFile;
use pld_base::ListOf;
use pld_device::{Device, Loaded};
use std::alloc::Global;

/// Runs the vectors of a fuse file on the device with its fuses.
///
/// The run starts at power-up, with the levels that the first vector drives, and takes a step to
/// those of each later one; a pin that a vector doesn't drive has the file's default level. A
/// vector with clocks takes two further steps: they are turned, and turned back. Then each `H`, `L`
/// and `Z` is held against what its pin shows. Characters past the device's pins count for nothing.
///
/// `UnsupportedCondition` is the first character that is not simulated. It precedes `DeviceLoop`, and
/// that before `DeviceResetReadsRegister`. The loaded device and the mismatches take memory, and
/// nothing else does.
pub fn simulate<D: Device>(
    alloc: Global,
    device: &Loaded<D>,
    file: &FuseFile,
) -> Result<Report, SimFault>
    requires size { length file.now.fuses ≡ D.table.fuses }
    requires few { length file.now.vectors < 2 ^ 32 }
    ensures simulated { IfOk result (λ r. IsSimulated D.table (contents D.table file.now) r) }
    ensures only { IfOk result (λ r. IsTheOnlyList D.table (contents D.table file.now) r.list) }
    ensures refused { IfErr result (IsSimFault D.table (contents D.table file.now)) }
{
    let vectors = file.vectors.as_slice();
    if let Some((vector, pin)) = first_unsupported(vectors, device.pins()) {
        return Err(SimFault::UnsupportedCondition { vector, pin });
    }
    let logic = load::<D>(alloc, device, &file.fuses)?;
    let list = run_vectors(alloc, &logic, device.pins(), file.default_level, vectors)?;
    Ok(Report {
        vectors: vectors.len() as u32,
        list: ListOf::from_vec(list),
    })
}
