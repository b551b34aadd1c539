//! Why a device with these fuses is not simulated.

use pld_base::OutOfMemory;
use std::alloc::{AllocError, AllocFailed};
use thiserror::Error;

/// Why a device with its fuses is not simulated, in the order in which it is found out.
#[derive(Debug, Drop, Error)]
pub enum SimFault {
    /// The vector, counted from 1 in their order, has at the pin a character that is not simulated.
    #[error("a vector has a condition that is not simulated")]
    UnsupportedCondition { vector: u32, pin: u8 },
    /// The cell on each of these pins reads the next one, and the last reads the first.
    #[error("a chain of reads returns to where it began")]
    DeviceLoop(Vec<u8>),
    /// The reset row reads the first of these pins, each cell on them reads the next, and the last
    /// one is a register.
    #[error("the reset depends on a register")]
    DeviceResetReadsRegister(Vec<u8>),
    /// Memory ran out.
    #[error("out of memory")]
    OutOfMemory,
}

impl From<OutOfMemory> for SimFault {
    ghost use Rattle.std.specs.Prelude.{◌≡◌};
    ghost use Rattle.device_logic.specs.declared.fault.SimFault.TheVariants as fault;

    ghost from_gives = { λ _ e. e ≡ fault.OutOfMemory };

    fn from(_error: OutOfMemory) -> SimFault {
        SimFault::OutOfMemory
    }
}

impl From<AllocError> for SimFault {
    ghost use Rattle.std.specs.Prelude.{◌≡◌};
    ghost use Rattle.device_logic.specs.declared.fault.SimFault.TheVariants as fault;

    ghost from_gives = { λ _ e. e ≡ fault.OutOfMemory };

    fn from(_error: AllocError) -> SimFault {
        SimFault::OutOfMemory
    }
}

impl<T: Drop> From<AllocFailed<T>> for SimFault {
    ghost use Rattle.std.specs.Prelude.{◌≡◌};
    ghost use Rattle.device_logic.specs.declared.fault.SimFault.TheVariants as fault;

    ghost from_gives = { λ _ e. e ≡ fault.OutOfMemory };

    fn from(_error: AllocFailed<T>) -> SimFault {
        SimFault::OutOfMemory
    }
}
