//! A sink for bytes, such as a report.

ghost use Rattle.std.specs.Prelude.{◌≡◌, ℕ, ◌≤◌, ◌⊎◌, List, ◌++◌, OnOk, IsErrOf};
ghost use Rattle.outside.specs.Causes.{Rose, Begins};

use thiserror::Error;

/// Why a piece was not taken whole.
#[derive(Clone, Copy, Debug, PartialEq, Eq, Error)]
pub enum SinkFault {
    /// The sink failed.
    #[error("the report was not written")]
    Failed,
    /// Memory ran out.
    #[error("out of memory")]
    OutOfMemory,
}

/// What takes bytes, piece after piece.
pub trait Sink {
    /// Whether an object shows what it has taken.
    ghost Tells: { Type 0 };

    /// The bytes taken so far, if they are reported.
    ghost taken: { Self → List ℕ };

    /// How often a call has failed, a count that never falls.
    ghost faults: { Self → ℕ };

    /// Appends a piece, or after a failure a front of it.
    fn put(&mut self, bytes: &[u8]) -> Result<(), SinkFault>
        ensures whole { Tells → OnOk result (taken self.new ≡ taken self.old ++ bytes.now) }
        ensures failed { IsErrOf result SinkFault.Failed
            → Rose (faults self.old) (faults self.new) }
        ensures still { IsErrOf result SinkFault.Failed ⊎ (faults self.new ≡ faults self.old) }
        ensures part { Tells → (front : List ℕ) × Begins bytes.now front
            × (taken self.new ≡ taken self.old ++ front) }
        ensures later { faults self.old ≤ faults self.new };
}
