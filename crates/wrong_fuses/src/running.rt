//! The vectors of a fuse file, run on a device with other fuses.

ghost use Rattle.std.specs.Prelude.{◌≡◌, ◌<◌, ◌^◌, IfOk, IfErr, length};
ghost use Rattle.wrong_fuses.specs.Prelude.{contents, device_logic, CanBeLoaded, CanBeSimulated, IsSimFault};
ghost use Rattle.wrong_fuses.specs.Verdicts.{first_vector, tried, FirstIs, IsTheList};

use device_sim::{Mismatch, SimFault, simulate};
use jedec_reader::FuseFile;
use pld_base::{ListOf, OutOfMemory};
use pld_device::{Device, Fuses, Loaded};
use std::alloc::Global;

/// The file with other fuses, and this level at the pins that no vector drives.
fn trial_of(
    alloc: Global,
    file: &FuseFile,
    fuses: &Fuses,
    level: bool,
) -> Result<FuseFile, OutOfMemory>
    ensures fuses { IfOk result (λ trial. trial.fuses ≡ fuses.now) }
    ensures vectors { IfOk result (λ trial. trial.vectors ≡ file.now.vectors) }
    ensures level { IfOk result (λ trial. trial.default_level ≡ level) }
{
    let fuses = Fuses::from_levels(fuses.levels().to_vec(alloc)?);
    let vectors = ListOf::from_vec(file.vectors.as_slice().to_vec(alloc)?);
    Ok(FuseFile {
        fuses,
        listed: file.listed,
        vectors,
        default_level: level,
    })
}

/// The mismatches of the vectors' run with these fuses, and this level at the pins that no vector drives.
pub fn list_at<D: Device>(
    alloc: Global,
    device: &Loaded<D>,
    file: &FuseFile,
    fuses: &Fuses,
    level: bool,
) -> Result<ListOf<Mismatch>, SimFault>
    requires size { length fuses.now ≡ D.table.fuses }
    requires few { length file.now.vectors < 2 ^ 32 }
    ensures run { IfOk result (IsTheList (device_logic D.table fuses.now) level
        (contents D.table file.now).vectors) }
    ensures can { IfOk result (λ _.
        CanBeSimulated D.table (tried (contents D.table file.now) fuses.now level)) }
    ensures refused { IfErr result
        (IsSimFault D.table (tried (contents D.table file.now) fuses.now level)) }
{
    let trial = trial_of(alloc, file, fuses, level)?;
    let report = simulate::<D>(alloc, device, &trial)?;
    Ok(report.list)
}

/// The vector of the first mismatch.
fn first_vector(list: &[Mismatch]) -> Option<u32>
    ensures { result ≡ first_vector list.now }
{
    match list {
        [] => None,
        [first, ..] => Some(first.vector),
    }
}

/// The first vector that disagrees. The file's vectors are simulated and these fuses are loaded, so that no more than memory
/// can be missing.
pub fn first_at<D: Device>(
    alloc: Global,
    device: &Loaded<D>,
    file: &FuseFile,
    fuses: &Fuses,
    level: bool,
) -> Result<Option<u32>, OutOfMemory>
    requires size { length fuses.now ≡ D.table.fuses }
    requires few { length file.now.vectors < 2 ^ 32 }
    requires simulated { CanBeSimulated D.table (contents D.table file.now) }
    requires loaded { CanBeLoaded D.table fuses.now }
    ensures { IfOk result (FirstIs (device_logic D.table fuses.now) level
        (contents D.table file.now).vectors) }
{
    match list_at::<D>(alloc, device, file, fuses, level) {
        Ok(list) => Ok(first_vector(list.as_slice())),
        Err(fault) => match fault {
            SimFault::OutOfMemory => Err(OutOfMemory),
            _ => unreachable!(),
        },
    }
}
