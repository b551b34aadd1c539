//! Why bytes are no fuse file.

use pld_base::OutOfMemory;
use std::alloc::{AllocError, AllocFailed};
use thiserror::Error;

/// Why bytes are no fuse file of a device, in the order in which it is found out. An offset counts bytes
/// from the start of the file, from 0.
#[derive(Debug, Drop, Error)]
pub enum JedecFault {
    /// No start byte (2) is in the file.
    #[error("no start byte")]
    NoStart,
    /// No end byte (3) follows, or it is not followed at once by four hexadecimal digits.
    #[error("no end byte with a sum")]
    NoEnd,
    /// The transmission sum that was read is neither 0000 nor that of the bytes.
    #[error("the file's sum is not that of its bytes")]
    FileSum { read: u16, found: u16 },
    /// The field whose letter is at the offset is unknown, or no asterisk ends the last field before the
    /// end byte at the offset.
    #[error("no field")]
    BadField(usize),
    /// The field whose letter is at the offset is not read.
    #[error("a field that is not read")]
    UnsupportedField(usize),
    /// The numbers of fuses or pins are not the device's, or a level is past the fuses.
    #[error("the sizes are not the device's")]
    WrongSize,
    /// This is the first fuse that has no level.
    #[error("a fuse has no level")]
    Unlisted(u16),
    /// The fuse sum that was read is not that of the fuses.
    #[error("the fuse sum is not that of the fuses")]
    FuseSum { read: u16, found: u16 },
    /// Memory ran out.
    #[error("out of memory")]
    OutOfMemory,
}

impl From<OutOfMemory> for JedecFault {
    ghost use Rattle.std.specs.Prelude.{◌≡◌};
    ghost use Rattle.jedec_file.specs.declared.jedec_fault.JedecFault.TheVariants as fault;

    ghost from_gives = { λ _ e. e ≡ fault.OutOfMemory };

    fn from(_error: OutOfMemory) -> JedecFault {
        JedecFault::OutOfMemory
    }
}

impl From<AllocError> for JedecFault {
    ghost use Rattle.std.specs.Prelude.{◌≡◌};
    ghost use Rattle.jedec_file.specs.declared.jedec_fault.JedecFault.TheVariants as fault;

    ghost from_gives = { λ _ e. e ≡ fault.OutOfMemory };

    fn from(_error: AllocError) -> JedecFault {
        JedecFault::OutOfMemory
    }
}

impl<T: Drop> From<AllocFailed<T>> for JedecFault {
    ghost use Rattle.std.specs.Prelude.{◌≡◌};
    ghost use Rattle.jedec_file.specs.declared.jedec_fault.JedecFault.TheVariants as fault;

    ghost from_gives = { λ _ e. e ≡ fault.OutOfMemory };

    fn from(_error: AllocFailed<T>) -> JedecFault {
        JedecFault::OutOfMemory
    }
}
