//! The rows of the reset and the preset that all registers share.

ghost use Rattle.std.specs.Prelude.{◌≡◌, ◌≤◌, None, true};
ghost use Rattle.fitter.specs.Prelude.{IsSoundNetlist, bit_list};
ghost use Rattle.fitter.specs.Coverable.{IsSoundId};
ghost use Rattle.fitter.specs.Width.{NoneWide};
ghost use Rattle.fitter.specs.Planned.{AreSharedRows, IsRowOf, IsSharedBitOf, no_product};
ghost use Rattle.fitter.specs.Sharing.{AllListed};

use crate::cell_covering::control_rows;
use crate::fault::FitFault;
use crate::shared::SharedControl;
use crate::sharing::{NotShared, shared_bit};
use crate::sound_fit::SoundFit;
use crate::stop::Stop;
use bit_expr::ExprId;
use covers::Cube;
use fit_plans::Workspace;
use pld_device::Device;
use sop_lowering::LowerFault;
use std::alloc::Global;

/// The rows that reset and preset all registers; None for a row of zeros.
#[derive(Drop)]
pub(crate) struct SharedRows {
    pub(crate) reset: Option<Cube>,
    pub(crate) preset: Option<Cube>,
}

/// The bit that all registers share.
fn bit_of<D: Device>(
    space: &mut Workspace,
    fit: &SoundFit<D>,
    which: SharedControl,
) -> Result<ExprId, FitFault>
    requires sound { IsSoundNetlist D.table fit.now.over.net.now }
    requires listed { AllListed fit.now.over.net.now which }
    ensures { IsSharedBitOf D.table fit.now.over.net.now which result }
{
    match shared_bit(space, fit, which) {
        Ok(bit) => Ok(bit),
        Err(Stop::Refused(NotShared { first, second, at })) => {
            Err(FitFault::NotShared(which, first, second, at))
        }
        Err(Stop::Memory) => Err(FitFault::OutOfMemory),
    }
}

/// What is refused if a control that all registers share is no product.
fn no_product(which: SharedControl) -> FitFault
    ensures { result ≡ no_product which }
{
    match which {
        SharedControl::Reset => FitFault::ResetTooWide,
        SharedControl::Preset => FitFault::PresetTooWide,
    }
}

/// The one row of a control, if any; refused if it is no product.
fn row_of<D: Device>(
    space: &mut Workspace,
    fit: &SoundFit<D>,
    bit: ExprId,
    which: SharedControl,
) -> Result<Option<Cube>, FitFault>
    requires sound { IsSoundNetlist D.table fit.now.over.net.now }
    requires id { IsSoundId D.table fit.now.over.net.now bit }
    requires listed { bit_list fit.now.over.net.now bit true ≡ None → ⊥ }
    ensures { IsRowOf D.table fit.now.over.turned fit.now.over.net.now bit which result }
{
    match control_rows(space, fit, bit) {
        Ok(rows) if rows.len() <= 1 => Ok(rows.first().copied()),
        Ok(_) => Err(no_product(which)),
        Err(LowerFault::OutOfMemory) => Err(FitFault::OutOfMemory),
        Err(LowerFault::TooWide) => unreachable!(),
    }
}

/// The rows of the reset and the preset that all registers share.
pub(crate) fn shared_rows<D: Device>(
    space: &mut Workspace,
    fit: &SoundFit<D>,
) -> Result<SharedRows, FitFault>
    requires sound { IsSoundNetlist D.table fit.now.over.net.now }
    requires wide { NoneWide D.table fit.now.over.net.now }
    ensures { AreSharedRows D.table fit.now.over.turned fit.now.over.net.now result }
{
    let reset_bit = bit_of(space, fit, SharedControl::Reset)?;
    let preset_bit = bit_of(space, fit, SharedControl::Preset)?;
    let reset = row_of(space, fit, reset_bit, SharedControl::Reset)?;
    let preset = row_of(space, fit, preset_bit, SharedControl::Preset)?;
    Ok(SharedRows { reset, preset })
}
