//! Fuses of one device written for another with the same array.

ghost use Rattle.std.specs.Prelude.{◌≡◌, ◌<◌, ◌*◌, ℕ, length, IfOk, IfErr};
ghost use Rattle.fuse_porting.specs.Prelude.{is_on, is_switched_on, device_logic};
ghost use Rattle.fuse_porting.specs.AllowSame.{AllowSame};
ghost use Rattle.fuse_porting.specs.Controls.{IsPortedLevel};
ghost use Rattle.fuse_porting.specs.Polarities.{IsPortFault};
ghost use Rattle.fuse_porting.specs.SameArray.{HasSameArray, IsCarriedOver};

use crate::control::control_level;
use crate::fault::PortFault;
use crate::polarity::polarities;
use device_logic::FuseArray;
use pld_base::OutOfMemory;
use pld_device::{Device, Fuses, Loaded};
use std::alloc::Global;

/// Whether the row isn't switched off.
fn is_switched_on<F: Device>(device: &Loaded<F>, fuses: &[bool], row: u16) -> bool
    requires { length fuses.now ≡ F.table.fuses }
    ensures { result ≡ is_switched_on F.table fuses.now row }
{
    match device.row_switch(row) {
        None => true,
        Some(fuse) => fuses[usize::from(fuse)],
    }
}

/// The level of a fuse of the other device: in the array that of the row, 0 where the row is switched off.
fn ported_level<F: Device, T: Device>(
    from: &Loaded<F>,
    to: &Loaded<T>,
    fuses: &[bool],
    polarities: &[bool],
    number: u16,
) -> bool
    requires array { HasSameArray F.table T.table }
    requires size { length fuses.now ≡ F.table.fuses }
    requires polarities { length polarities.now ≡ length T.table.cells }
    requires below { number < T.table.fuses }
    ensures { IsPortedLevel F.table T.table fuses.now polarities.now number result }
{
    if number < to.columns() * to.rows() {
        is_switched_on::<F>(from, fuses, number / to.columns()) && fuses[usize::from(number)]
    } else {
        control_level::<T>(to, polarities, number)
    }
}

/// All of them.
fn ported_levels<F: Device, T: Device>(
    alloc: Global,
    from: &Loaded<F>,
    to: &Loaded<T>,
    fuses: &[bool],
    polarities: &[bool],
) -> Result<Vec<bool>, OutOfMemory>
    requires array { HasSameArray F.table T.table }
    requires size { length fuses.now ≡ F.table.fuses }
    requires polarities { length polarities.now ≡ length T.table.cells }
    ensures size { IfOk result (λ levels. length levels.items ≡ T.table.fuses) }
    ensures levels { IfOk result (λ levels. (n : ℕ) → n < T.table.fuses
        → IsPortedLevel F.table T.table fuses.now polarities.now n (is_on levels.items n)) }
{
    let mut levels = Vec::new(alloc);
    for number in 0..to.fuses() {
        levels.push(ported_level::<F, T>(from, to, fuses, polarities, number))?;
    }
    Ok(levels)
}

/// The fuses with which the other device does what this one does with these.
///
/// Takes memory for both lists of fuses and a level for each cell.
pub fn ported<F: Device, T: Device>(
    alloc: Global,
    from: &Loaded<F>,
    to: &Loaded<T>,
    fuses: &Fuses,
) -> Result<Fuses, PortFault>
    requires array { HasSameArray F.table T.table }
    requires size { length fuses.now ≡ F.table.fuses }
    ensures same { IfOk result (λ other. AllowSame (device_logic F.table fuses.now) (device_logic T.table other)) }
    ensures carried { IfOk result (λ other. IsCarriedOver F.table T.table fuses.now other) }
    ensures refused { IfErr result (IsPortFault F.table T.table fuses.now) }
{
    let array = FuseArray::<F>::new(alloc, from, fuses)?;
    let polarities = polarities::<F, T>(alloc, &array, to)?;
    let levels = ported_levels::<F, T>(alloc, from, to, fuses.levels(), &polarities)?;
    Ok(Fuses::from_levels(levels))
}
