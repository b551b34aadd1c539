//! The verdict on each single wrong fuse.

ghost use Rattle.std.specs.Prelude.{◌≡◌, ◌<◌, ◌^◌, IfOk, IfErr, length};
ghost use Rattle.fuse_compare.specs.Alike.{FindsDifference};
ghost use Rattle.wrong_fuses.specs.Prelude.{contents, device_logic, CanBeLoaded, CanBeSimulated, IsSimFault};
ghost use Rattle.wrong_fuses.specs.Passing.{ShowsTheRight};
ghost use Rattle.wrong_fuses.specs.Verdicts.{AreJudged, AreOfRight, IsFoundBy, IsJudged, IsVerdict, Passes};

use crate::faults::is_fault;
use crate::flipping::with_wrong;
use crate::running::{first_at, list_at};
use crate::same_table::mean_same;
use crate::verdict::{Grade, Judged, Verdict};
use device_logic::{DeviceLogic, SimFault, load};
use fuse_compare::{Difference, compare};
use jedec_reader::FuseFile;
use pld_base::{ListOf, OutOfMemory};
use pld_device::{Device, Fuses, Loaded, wrong_fuse};
use std::alloc::Global;

/// How many of the first vectors show that a chip with these fuses isn't the right one, whatever the level of pins that
/// no vector drives.
fn found_by<D: Device>(
    alloc: Global,
    device: &Loaded<D>,
    file: &FuseFile,
    wrong: &Fuses,
) -> Result<Option<u32>, OutOfMemory>
    requires size { length wrong.now ≡ D.table.fuses }
    requires few { length file.now.vectors < 2 ^ 32 }
    requires simulated { CanBeSimulated D.table (contents D.table file.now) }
    requires loaded { CanBeLoaded D.table wrong.now }
    ensures { IfOk result (IsFoundBy (device_logic D.table wrong.now)
        (contents D.table file.now).vectors) }
{
    let Some(low) = first_at::<D>(alloc, device, file, wrong, false)? else {
        return Ok(None);
    };
    let Some(high) = first_at::<D>(alloc, device, file, wrong, true)? else {
        return Ok(None);
    };
    Ok(Some(low.max(high)))
}

/// A difference between fuses that are loaded, so that no more than memory can be missing for it.
fn difference<D: Device>(
    alloc: Global,
    device: &Loaded<D>,
    right: &Fuses,
    wrong: &Fuses,
) -> Result<Option<Difference>, OutOfMemory>
    requires right { length right.now ≡ D.table.fuses }
    requires wrong { length wrong.now ≡ D.table.fuses }
    requires right_loaded { CanBeLoaded D.table right.now }
    requires loaded { CanBeLoaded D.table wrong.now }
    ensures { IfOk result
        (FindsDifference (device_logic D.table right.now) (device_logic D.table wrong.now)) }
{
    match compare::<D>(alloc, device, right, wrong) {
        Ok(found) => Ok(found),
        Err(fault) => match fault {
            SimFault::OutOfMemory => Err(OutOfMemory),
            _ => unreachable!(),
        },
    }
}

/// The verdict on fuses that no vector finds.
fn unfound<D: Device>(
    alloc: Global,
    device: &Loaded<D>,
    file: &FuseFile,
    wrong: &Fuses,
) -> Result<Verdict, OutOfMemory>
    requires file { length file.now.fuses ≡ D.table.fuses }
    requires size { length wrong.now ≡ D.table.fuses }
    requires right_loaded { CanBeLoaded D.table file.now.fuses }
    requires loaded { CanBeLoaded D.table wrong.now }
    requires passes { Passes (device_logic D.table wrong.now) (contents D.table file.now).vectors }
    ensures { IfOk result (IsVerdict D.table (contents D.table file.now) wrong.now) }
{
    match difference::<D>(alloc, device, &file.fuses, wrong)? {
        None => Ok(Verdict::Same),
        Some(_difference) => Ok(Verdict::Missed),
    }
}

/// The verdict on fuses that were loaded.
fn verdict_of<D: Device>(
    alloc: Global,
    file: &FuseFile,
    right: &DeviceLogic<'_, D>,
    wrong: &Fuses,
    chip: &DeviceLogic<'_, D>,
) -> Result<Verdict, OutOfMemory>
    requires file { length file.now.fuses ≡ D.table.fuses }
    requires size { length wrong.now ≡ D.table.fuses }
    requires few { length file.now.vectors < 2 ^ 32 }
    requires right { right.now.fuses ≡ file.now.fuses }
    requires chip { chip.now.fuses ≡ wrong.now }
    requires simulated { CanBeSimulated D.table (contents D.table file.now) }
    requires loaded { CanBeLoaded D.table wrong.now }
    ensures { IfOk result (IsVerdict D.table (contents D.table file.now) wrong.now) }
{
    // Most wrong fuses are in rows that stay 0.
    if mean_same(right, chip) {
        return Ok(Verdict::Same);
    }
    match found_by::<D>(alloc, right.device(), file, wrong)? {
        Some(vectors) => Ok(Verdict::Found(vectors)),
        None => unfound::<D>(alloc, right.device(), file, wrong),
    }
}

/// The verdict on fuses.
fn judge_fuses<D: Device>(
    alloc: Global,
    file: &FuseFile,
    right: &DeviceLogic<'_, D>,
    wrong: &Fuses,
) -> Result<Verdict, OutOfMemory>
    requires file { length file.now.fuses ≡ D.table.fuses }
    requires size { length wrong.now ≡ D.table.fuses }
    requires few { length file.now.vectors < 2 ^ 32 }
    requires right { right.now.fuses ≡ file.now.fuses }
    requires simulated { CanBeSimulated D.table (contents D.table file.now) }
    ensures { IfOk result (IsVerdict D.table (contents D.table file.now) wrong.now) }
{
    if wrong_fuse::<D>(right.device(), wrong).is_some() {
        return Ok(Verdict::OtherMode);
    }
    match load::<D>(alloc, right.device(), wrong) {
        Ok(chip) => verdict_of(alloc, file, right, wrong, &chip),
        Err(SimFault::OutOfMemory) => Err(OutOfMemory),
        Err(fault) => Ok(Verdict::Refused(fault)),
    }
}

/// The verdict on one fuse.
fn judge_fuse<D: Device>(
    alloc: Global,
    file: &FuseFile,
    right: &DeviceLogic<'_, D>,
    fuse: u16,
) -> Result<Judged, OutOfMemory>
    requires file { length file.now.fuses ≡ D.table.fuses }
    requires fuse { fuse < D.table.fuses }
    requires few { length file.now.vectors < 2 ^ 32 }
    requires right { right.now.fuses ≡ file.now.fuses }
    requires simulated { CanBeSimulated D.table (contents D.table file.now) }
    ensures judged { IfOk result (IsJudged D.table (contents D.table file.now)) }
    ensures fuse { IfOk result (λ it. it.fuse ≡ fuse) }
{
    let wrong = with_wrong(alloc, &file.fuses, fuse)?;
    let verdict = judge_fuses(alloc, file, right, &wrong)?;
    Ok(Judged { fuse, verdict })
}

/// The verdict on each fuse that can be wrong, in rising order.
fn judge_all<D: Device>(
    alloc: Global,
    file: &FuseFile,
    right: &DeviceLogic<'_, D>,
) -> Result<Vec<Judged>, OutOfMemory>
    requires file { length file.now.fuses ≡ D.table.fuses }
    requires few { length file.now.vectors < 2 ^ 32 }
    requires right { right.now.fuses ≡ file.now.fuses }
    requires simulated { CanBeSimulated D.table (contents D.table file.now) }
    ensures { IfOk result (λ list. AreJudged D.table (contents D.table file.now) list.items) }
{
    let mut list = Vec::new(alloc);
    for fuse in 0..right.device().fuses() {
        if is_fault::<D>(right.device(), fuse) {
            list.push(judge_fuse(alloc, file, right, fuse)?)?;
        }
    }
    Ok(list)
}

/// Runs the vectors of a fuse file on the right device and on each device with one wrong fuse, and says of each wrong
/// fuse whether the vectors find it.
///
/// Refuses what `device_sim::simulate` refuses. Takes memory for two loaded devices, two copies of the vectors and the
/// verdicts. A fuse that no vector finds takes the time of `fuse_compare::compare`.
pub fn judge<D: Device>(
    alloc: Global,
    device: &Loaded<D>,
    file: &FuseFile,
) -> Result<Grade, SimFault>
    requires size { length file.now.fuses ≡ D.table.fuses }
    requires few { length file.now.vectors < 2 ^ 32 }
    ensures right { IfOk result (AreOfRight D.table (contents D.table file.now)) }
    ensures vectors { IfOk result (λ grade. grade.vectors ≡ length file.now.vectors) }
    ensures judged { IfOk result (λ grade.
        AreJudged D.table (contents D.table file.now) grade.judged) }
    ensures passed { IfOk result (λ grade.
        ShowsTheRight D.table (contents D.table file.now) grade.judged) }
    ensures refused { IfErr result (IsSimFault D.table (contents D.table file.now)) }
{
    let low = list_at::<D>(alloc, device, file, &file.fuses, false)?;
    let high = list_at::<D>(alloc, device, file, &file.fuses, true)?;
    let right = load::<D>(alloc, device, &file.fuses)?;
    let judged = judge_all(alloc, file, &right)?;
    Ok(Grade {
        vectors: file.vectors.as_slice().len() as u32,
        low,
        high,
        judged: ListOf::from_vec(judged),
    })
}
