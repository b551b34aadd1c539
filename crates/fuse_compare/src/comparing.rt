//! Comparing two fuse lists of one device.

ghost use Rattle.std.specs.Prelude.{◌≡◌, IfErr, IfOk, IfSome, None, Ok, length};
ghost use Rattle.fuse_compare.specs.Prelude.{device_logic};
ghost use Rattle.fuse_compare.specs.Alike.{FindsDifference, RunsAlike};
ghost use Rattle.fuse_compare.specs.Compared.{CanBeCompared, IsCompareFault, IsPlainState};

use crate::choosing::choose;
use crate::difference::Difference;
use crate::knowing::cut_of;
use crate::masked::MaskedLogic;
use crate::searching::{Search, compared};
use device_logic::SimFault;
use pld_device::{Device, Fuses, Loaded};
use std::alloc::Global;

/// A difference between the device with the fuses `a` and with the fuses `b`, or None if they behave
/// alike.
///
/// Answers what `device_logic::load` answers of `a` if it refuses it, else what it answers of `b`.
/// Takes memory for both loaded devices, a mask for each row, and the variables of the search. Its time
/// can double with each pin and register that a row reads.
pub fn compare<D: Device>(
    alloc: Global,
    device: &Loaded<D>,
    a: &Fuses,
    b: &Fuses,
) -> Result<Option<Difference>, SimFault>
    requires first { length a.now ≡ D.table.fuses }
    requires second { length b.now ≡ D.table.fuses }
    ensures found { IfOk result
        (FindsDifference (device_logic D.table a.now) (device_logic D.table b.now)) }
    ensures plain { IfOk result (λ found. IfSome found (IsPlainState D.table a.now b.now)) }
    ensures runs { result ≡ Ok None
        → RunsAlike (device_logic D.table a.now) (device_logic D.table b.now) }
    ensures loaded { IfOk result (λ _. CanBeCompared D.table a.now b.now) }
    ensures refused { IfErr result (IsCompareFault D.table a.now b.now) }
{
    let first = MaskedLogic::<D>::load(alloc, device, a)?;
    let second = MaskedLogic::<D>::load(alloc, device, b)?;
    let choice = choose(alloc, first.array(), second.array())?;
    let cut = cut_of(alloc, &first, &second)?;
    let search = Search {
        a: &first,
        b: &second,
        vars: &choice.vars,
        cut: &cut,
    };
    Ok(compared(&search, choice.fixed))
}
