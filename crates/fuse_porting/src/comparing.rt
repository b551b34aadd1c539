//! Comparing fuses of two devices that have the same array.
//!
//! The idea: the fuses of the device that always complements are carried over to the other, which never fails, and compared
//! there with the others.

ghost use Rattle.std.specs.Prelude.{◌≡◌, ◌⊎◌, length, IfErr, IfOk, IfSome, None, Ok};
ghost use Rattle.fuse_porting.specs.Prelude.{device_logic};
ghost use Rattle.pld_device.specs.declared.flip.Flip.TheVariants.{Always};
ghost use Rattle.fuse_compare.specs.Alike.{FindsDifference, RunsAlike};
ghost use Rattle.fuse_porting.specs.Across.{CanBeComparedAcross, IsAcrossFault, IsPlainAcross};
ghost use Rattle.fuse_porting.specs.AllowSame.{AllowSame};
ghost use Rattle.fuse_porting.specs.SameArray.{HasSameArray, IsCarriedOver};

use crate::fault::PortFault;
use crate::porting::ported;
use device_logic::SimFault;
use fuse_compare::{Difference, compare};
use pld_base::OutOfMemory;
use pld_device::{Device, Flip, Fuses, Loaded};
use std::alloc::Global;

/// The fuses with which the other device does what a device that always complements does. Each of its cells has a
/// counterpart, so that no more than memory can be missing.
fn carried_over<F: Device, T: Device>(
    alloc: Global,
    from: &Loaded<F>,
    to: &Loaded<T>,
    fuses: &Fuses,
) -> Result<Fuses, OutOfMemory>
    requires array { HasSameArray F.table T.table }
    requires always { F.table.flip ≡ Always }
    requires size { length fuses.now ≡ F.table.fuses }
    ensures same { IfOk result (λ other. AllowSame (device_logic F.table fuses.now) (device_logic T.table other)) }
    ensures carried { IfOk result (λ other. IsCarriedOver F.table T.table fuses.now other) }
{
    match ported::<F, T>(alloc, from, to, fuses) {
        Ok(other) => Ok(other),
        Err(PortFault::OutOfMemory) => Err(OutOfMemory),
        Err(PortFault::NoCounterpart(_pin)) => unreachable!(),
    }
}

/// Compares where the second device is, if the first always complements.
fn compare_in_second<F: Device, T: Device>(
    alloc: Global,
    from: &Loaded<F>,
    to: &Loaded<T>,
    a: &Fuses,
    b: &Fuses,
) -> Result<Option<Difference>, SimFault>
    requires array { HasSameArray F.table T.table }
    requires always { F.table.flip ≡ Always }
    requires first { length a.now ≡ F.table.fuses }
    requires second { length b.now ≡ T.table.fuses }
    ensures found { IfOk result
        (FindsDifference (device_logic F.table a.now) (device_logic T.table b.now)) }
    ensures plain { IfOk result (λ found. IfSome found (IsPlainAcross F.table T.table a.now b.now)) }
    ensures runs { result ≡ Ok None
        → RunsAlike (device_logic F.table a.now) (device_logic T.table b.now) }
    ensures loaded { IfOk result (λ _. CanBeComparedAcross F.table T.table a.now b.now) }
    ensures refused { IfErr result (IsAcrossFault F.table T.table a.now b.now) }
{
    let other = carried_over::<F, T>(alloc, from, to, a)?;
    compare::<T>(alloc, to, &other, b)
}

/// Compares where the first device is, if the second always complements.
fn compare_in_first<F: Device, T: Device>(
    alloc: Global,
    from: &Loaded<F>,
    to: &Loaded<T>,
    a: &Fuses,
    b: &Fuses,
) -> Result<Option<Difference>, SimFault>
    requires array { HasSameArray F.table T.table }
    requires always { T.table.flip ≡ Always }
    requires first { length a.now ≡ F.table.fuses }
    requires second { length b.now ≡ T.table.fuses }
    ensures found { IfOk result
        (FindsDifference (device_logic F.table a.now) (device_logic T.table b.now)) }
    ensures plain { IfOk result (λ found. IfSome found (IsPlainAcross F.table T.table a.now b.now)) }
    ensures runs { result ≡ Ok None
        → RunsAlike (device_logic F.table a.now) (device_logic T.table b.now) }
    ensures loaded { IfOk result (λ _. CanBeComparedAcross F.table T.table a.now b.now) }
    ensures refused { IfErr result (IsAcrossFault F.table T.table a.now b.now) }
{
    let other = carried_over::<T, F>(alloc, to, from, b)?;
    compare::<F>(alloc, from, a, &other)
}

/// A difference between one device with the fuses `a` and another with the fuses `b`, or None if they behave alike. One of
/// the two always complements.
///
/// Answers what `device_logic::load` answers of `a` if it refuses it, else what it answers of `b`. Takes the memory of
/// `ported` and of `compare`, and the time of `compare`.
pub fn compare_across<F: Device, T: Device>(
    alloc: Global,
    from: &Loaded<F>,
    to: &Loaded<T>,
    a: &Fuses,
    b: &Fuses,
) -> Result<Option<Difference>, SimFault>
    requires array { HasSameArray F.table T.table }
    requires always { (F.table.flip ≡ Always) ⊎ (T.table.flip ≡ Always) }
    requires first { length a.now ≡ F.table.fuses }
    requires second { length b.now ≡ T.table.fuses }
    ensures found { IfOk result
        (FindsDifference (device_logic F.table a.now) (device_logic T.table b.now)) }
    ensures plain { IfOk result (λ found. IfSome found (IsPlainAcross F.table T.table a.now b.now)) }
    ensures runs { result ≡ Ok None
        → RunsAlike (device_logic F.table a.now) (device_logic T.table b.now) }
    ensures loaded { IfOk result (λ _. CanBeComparedAcross F.table T.table a.now b.now) }
    ensures refused { IfErr result (IsAcrossFault F.table T.table a.now b.now) }
{
    match from.flip() {
        Flip::Always => compare_in_second::<F, T>(alloc, from, to, a, b),
        Flip::AfterRegister | Flip::BeforeRegister => compare_in_first::<F, T>(
            alloc, from, to, a, b,
        ),
    }
}
