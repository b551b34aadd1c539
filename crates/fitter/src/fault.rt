//! Why a netlist does not fit.

use crate::shared::SharedControl;
use fit_plans::Tried;
use pld_base::{OutOfMemory, Point};
use std::alloc::{AllocError, AllocFailed};
use std::fmt::{self, Debug, Formatter};
use thiserror::Error;

/// Why a netlist does not fit a device: the first of these in this order. TooWide names the cell that is first in the source,
/// another kind the cell that is first in the device. A number is a cell's, in the order of the device.
#[derive(Drop, Error)]
pub enum FitFault {
    /// A written list of the cell's function, in each form that it may have, or of a control of it, would pass 1,024
    /// products.
    #[error("a cell is wider than 1,024 products")]
    TooWide(u8),
    /// The resets, or else the presets, of two cells differ at the point.
    #[error("two cells differ in what all registers share")]
    NotShared(SharedControl, u8, u8, Point),
    /// The reset is neither 0 nor one product.
    #[error("the reset is no product")]
    ResetTooWide,
    /// The preset is neither 0 nor one product.
    #[error("the preset is no product")]
    PresetTooWide,
    /// The enable of the cell is neither 0 nor one product.
    #[error("the enable of a cell is no product")]
    EnableTooWide(u8),
    /// The cell has too few rows for its covers, which are over the columns.
    #[error("a cell has too few rows")]
    TooManyProducts(u8, Tried),
    /// Memory ran out.
    #[error("out of memory")]
    OutOfMemory,
}

impl Debug for FitFault {
    fn fmt<W: fmt::Write>(&self, f: &mut Formatter<W>) -> fmt::Result {
        write!(f, "{self}")
    }
}

impl From<AllocError> for FitFault {
    ghost use Rattle.std.specs.Prelude.{◌≡◌};
    ghost use Rattle.fitter.specs.declared.fault.FitFault.TheVariants.{OutOfMemory};

    ghost from_gives = { λ _ e. e ≡ OutOfMemory };

    fn from(_error: AllocError) -> FitFault {
        FitFault::OutOfMemory
    }
}

impl<T: Drop> From<AllocFailed<T>> for FitFault {
    ghost use Rattle.std.specs.Prelude.{◌≡◌};
    ghost use Rattle.fitter.specs.declared.fault.FitFault.TheVariants.{OutOfMemory};

    ghost from_gives = { λ _ e. e ≡ OutOfMemory };

    fn from(_error: AllocFailed<T>) -> FitFault {
        FitFault::OutOfMemory
    }
}

impl From<OutOfMemory> for FitFault {
    ghost use Rattle.std.specs.Prelude.{◌≡◌};
    ghost use Rattle.fitter.specs.declared.fault.FitFault.TheVariants.{OutOfMemory};

    ghost from_gives = { λ _ e. e ≡ OutOfMemory };

    fn from(_error: OutOfMemory) -> FitFault {
        FitFault::OutOfMemory
    }
}
