//! Files by their names.

ghost use Rattle.std.specs.Prelude.{◌≡◌, ℕ, ◌≤◌, ◌<◌, ◌⊎◌, List, length, Option, IfOk, OnOk, IsErrOf};
ghost use Rattle.outside.specs.Causes.{Rose};
ghost use Rattle.outside.specs.Outside.{bytes_at, SameFiles, SameBut};

use std::alloc::Global;
use thiserror::Error;

/// Why a file was not read.
#[derive(Clone, Copy, Debug, PartialEq, Eq, Error)]
pub enum ReadFault {
    /// The read failed, or the name is absent.
    #[error("the file was not read")]
    Failed,
    /// The file has more bytes than the limit.
    #[error("the file is too long")]
    TooLong,
    /// Memory ran out.
    #[error("out of memory")]
    OutOfMemory,
}

/// Why a file was not written.
#[derive(Clone, Copy, Debug, PartialEq, Eq, Error)]
pub enum WriteFault {
    /// The write failed; the named file may hold anything.
    #[error("the file was not written")]
    Failed,
    /// Memory ran out before anything was written.
    #[error("out of memory")]
    OutOfMemory,
}

/// Files, each under a name.
pub trait Files {
    /// Whether an object shows what its files hold.
    ghost Tells: { Type 0 };

    /// The bytes under each name, if they are reported.
    ghost file: { Self → List ℕ → Option (List ℕ) };

    /// How often a call has failed, a count that never falls.
    ghost faults: { Self → ℕ };

    /// How often a write has failed, a count that never falls.
    ghost write_faults: { Self → ℕ };

    /// Reads the bytes under a name, at most `limit` of them, and changes no file.
    fn read(&mut self, alloc: Global, name: &str, limit: usize) -> Result<Vec<u8>, ReadFault>
        ensures bytes { Tells → IfOk result (λ v. v.items ≡ bytes_at (file self.old) name.now) }
        ensures within { IfOk result (λ v. length v.items ≤ limit) }
        ensures too_long { Tells → IsErrOf result ReadFault.TooLong
            → limit < length (bytes_at (file self.old) name.now) }
        ensures failed { IsErrOf result ReadFault.Failed
            → Rose (faults self.old) (faults self.new) }
        ensures still { IsErrOf result ReadFault.Failed ⊎ (faults self.new ≡ faults self.old) }
        ensures same { Tells → SameFiles (file self.old) (file self.new) }
        ensures later { faults self.old ≤ faults self.new }
        ensures no_write { write_faults self.new ≡ write_faults self.old };

    /// Puts the bytes under a name, in place of older ones. After `Failed` that name may hold anything.
    fn write(&mut self, name: &str, bytes: &[u8]) -> Result<(), WriteFault>
        ensures written { Tells → OnOk result (file self.new name.now ≡ Some bytes.now) }
        ensures failed { IsErrOf result WriteFault.Failed
            → Rose (faults self.old) (faults self.new) }
        ensures failed_write { IsErrOf result WriteFault.Failed
            → Rose (write_faults self.old) (write_faults self.new) }
        ensures still { IsErrOf result WriteFault.Failed
            ⊎ ((faults self.new ≡ faults self.old)
            × (write_faults self.new ≡ write_faults self.old)) }
        ensures memory { Tells → IsErrOf result WriteFault.OutOfMemory
            → SameFiles (file self.old) (file self.new) }
        ensures others { Tells → SameBut name.now (file self.old) (file self.new) }
        ensures later { faults self.old ≤ faults self.new }
        ensures later_write { write_faults self.old ≤ write_faults self.new };
}
