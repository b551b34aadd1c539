//! The polarity with which another device's cell does what a cell does.

ghost use Rattle.std.specs.Prelude.{◌≡◌, ◌<◌, ℕ, true, length, IfOk, IfErr};
ghost use Rattle.fuse_porting.specs.Prelude.{is_on, data_complements, never_drives, pin_complements};
ghost use Rattle.fuse_porting.specs.SameArray.{complements_alike, polarity_fits};
ghost use Rattle.fuse_porting.specs.Polarities.{IsPortFault, fitting};

use crate::fault::PortFault;
use device_logic::{FuseArray, cell_of};
use pld_device::{Device, Enable, Flip, Loaded};
use std::alloc::Global;

/// Whether the pin has the complement of a cell's output.
fn pin_complements(flip: Flip, is_register: bool, inverted: bool) -> bool
    ensures { result ≡ pin_complements flip is_register inverted }
{
    match flip {
        Flip::Always => true,
        Flip::AfterRegister => inverted,
        Flip::BeforeRegister => is_register || inverted,
    }
}

/// Whether a register takes the complement of its data.
fn data_complements(flip: Flip, inverted: bool) -> bool
    ensures { result ≡ data_complements flip inverted }
{
    match flip {
        Flip::Always | Flip::AfterRegister => false,
        Flip::BeforeRegister => !inverted,
    }
}

/// Whether two devices complement the same with these polarities.
fn complements_alike(from: Flip, to: Flip, is_register: bool, inverted: bool, other: bool) -> bool
    ensures { result ≡ complements_alike from to is_register inverted other }
{
    pin_complements(from, is_register, inverted) == pin_complements(to, is_register, other)
        && (!is_register || data_complements(from, inverted) == data_complements(to, other))
}

/// Whether the cell never drives its pin.
fn never_drives<F: Device>(array: &FuseArray<'_, F>, cell: u8) -> bool
    requires { cell < length F.table.cells }
    ensures { result ≡ never_drives F.table array.now cell }
{
    match cell_of::<F>(array.device(), cell).enable {
        Enable::Row(row) => !array.is_live(row),
        Enable::PinLow(_) | Enable::Driven => false,
        Enable::Released => true,
    }
}

/// Whether the other device's cell does with this polarity what the cell does.
fn polarity_fits<F: Device, T: Device>(
    array: &FuseArray<'_, F>,
    to: &Loaded<T>,
    cell: u8,
    other: bool,
) -> bool
    requires { cell < length F.table.cells }
    ensures { result ≡ polarity_fits F.table T.table array.now cell other }
{
    let is_register = array.stores(cell);
    let inverted = array.is_inverted(cell);
    (!is_register && never_drives(array, cell))
        || complements_alike(
            array.device().flip(),
            to.flip(),
            is_register,
            inverted,
            other,
        )
}

/// A polarity that fits; inverted first, as the PAL16 is.
fn fitting<F: Device, T: Device>(array: &FuseArray<'_, F>, to: &Loaded<T>, cell: u8) -> Option<bool>
    requires { cell < length F.table.cells }
    ensures { result ≡ fitting (polarity_fits F.table T.table array.now cell) }
{
    if polarity_fits::<F, T>(array, to, cell, true) {
        Some(true)
    } else if polarity_fits::<F, T>(array, to, cell, false) {
        Some(false)
    } else {
        None
    }
}

/// A polarity that fits for each cell.
pub(crate) fn polarities<F: Device, T: Device>(
    alloc: Global,
    array: &FuseArray<'_, F>,
    to: &Loaded<T>,
) -> Result<Vec<bool>, PortFault>
    ensures size { IfOk result (λ ps. length ps.items ≡ length F.table.cells) }
    ensures fit { IfOk result (λ ps. (c : ℕ) → c < length F.table.cells
        → polarity_fits F.table T.table array.now c (is_on ps.items c) ≡ true) }
    ensures refused { IfErr result (IsPortFault F.table T.table array.now) }
{
    let mut found = Vec::new(alloc);
    for cell in 0..array.device().cells() {
        let Some(other) = fitting::<F, T>(array, to, cell) else {
            return Err(PortFault::NoCounterpart(cell_of::<F>(array.device(), cell).pin));
        };
        found.push(other)?;
    }
    Ok(found)
}
