//! A writer as a sink. Nothing is reported of what it holds.

ghost use Rattle.std.specs.Io.KnownBytes.{Appends};
ghost use Rattle.std.specs.Prelude.{◌≡◌, ◌≤◌, ◌⊎◌, [], OnOk, IsErrOf};
ghost use Rattle.outside.specs.Causes.{Rose};
ghost use Rattle.outside.specs.HostState.{writer_of, put_faults};

use crate::bytes::write_all;
use crate::sink::{Sink, SinkFault};
use std::alloc::Global;
use std::io::Write;

/// A writer as a sink, standard output in the program.
#[derive(Drop)]
pub struct HostSink<W: Write + Drop> {
    out: W,
    alloc: Global,
    faults: u64,
}

impl<W: Write + Drop> HostSink<W> {
    /// The writer as a sink that has not failed yet. Takes no memory.
    pub fn new(alloc: Global, out: W) -> HostSink<W>
        ensures writer { writer_of result ≡ out }
        ensures faults { put_faults result ≡ 0 }
    {
        HostSink {
            out,
            alloc,
            faults: 0,
        }
    }
}

impl<W: Write + Drop> Sink for HostSink<W> {
    ghost Tells = { ⊥ };

    ghost taken = { λ _. [] };

    ghost faults = { λ h. h.faults };

    /// If the writer says what it holds, that grew by the whole piece.
    fn put(&mut self, bytes: &[u8]) -> Result<(), SinkFault>
        ensures whole { OnOk result (Appends (W.contents (writer_of self.old))
            (W.contents (writer_of self.new)) bytes.now) }
        ensures failed { IsErrOf result SinkFault.Failed
            → Rose (put_faults self.old) (put_faults self.new) }
        ensures still { IsErrOf result SinkFault.Failed
            ⊎ (put_faults self.new ≡ put_faults self.old) }
        ensures later { put_faults self.old ≤ put_faults self.new }
    {
        if write_all(&mut self.out, bytes) {
            return Ok(());
        }
        self.faults = self.faults.saturating_add(1);
        Err(SinkFault::Failed)
    }
}
