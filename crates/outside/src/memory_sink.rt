//! A sink in memory.

ghost use Rattle.std.specs.Prelude.{⊤, ◌≡◌, ℕ, ◌≤◌, ◌<◌, ◌^◌, ◌-◌, ◌+◌, ◌↔◌, ◌⊎◌, List, [], ◌∷◌, ◌++◌, min, OnOk, OnErr, IsErrOf, IsTrue};
ghost use Rattle.outside.specs.Causes.{Rose, Begins};
ghost use Rattle.outside.specs.Memory.{FailsNext};
ghost use Rattle.outside.specs.MemoryState.{taken_by, RefusesNow, refused_calls, puts_made, sink_faults};

use crate::sink::{Sink, SinkFault};
use pld_base::OutOfMemory;
use std::alloc::Global;

/// Bytes in memory. A call whose number, from 1, is on the list of those that fail answers `Failed`.
#[derive(Drop)]
pub struct MemorySink {
    taken: Vec<u8>,
    failing: Vec<u32>,
    calls: u64,
    faults: u64,
}

impl MemorySink {
    /// No bytes, no calls and none that is to fail. Takes no memory.
    pub fn new(alloc: Global) -> MemorySink
        ensures taken { taken_by result ≡ [] }
        ensures failing { refused_calls result ≡ [] }
        ensures counts { (puts_made result ≡ 0) × (sink_faults result ≡ 0) }
    {
        MemorySink {
            taken: Vec::new(alloc),
            failing: Vec::new(alloc),
            calls: 0,
            faults: 0,
        }
    }

    /// Makes the call of that number fail.
    pub fn fail(&mut self, call: u32) -> Result<(), OutOfMemory>
        ensures ok { OnOk result (refused_calls self.new ≡ refused_calls self.old ++ call ∷ []) }
        ensures err { OnErr result (refused_calls self.new ≡ refused_calls self.old) }
        ensures taken { taken_by self.new ≡ taken_by self.old }
        ensures counts { (puts_made self.new ≡ puts_made self.old)
            × (sink_faults self.new ≡ sink_faults self.old) }
    {
        self.failing.push(call)?;
        Ok(())
    }

    /// The bytes taken so far. Takes no memory.
    pub fn bytes(&self) -> &[u8]
        ensures { result.now ≡ taken_by self.now }
    {
        self.taken.as_slice()
    }

    /// Counts a call, and says whether it is on the list of those that fail.
    fn fails_now(&mut self) -> bool
        ensures fails { IsTrue result ↔ FailsNext self.old.failing.items self.old.calls }
        ensures counted { self.new
            ≡ record self.old { calls = min (self.old.calls + 1) (2 ^ 64 - 1) } }
    {
        self.calls = self.calls.saturating_add(1);
        match u32::try_from(self.calls) {
            Ok(call) => self.failing.contains(&call),
            Err(_) => false,
        }
    }
}

impl Sink for MemorySink {
    ghost Tells = { ⊤ };

    ghost taken = { λ s. s.taken.items };

    ghost faults = { λ s. s.faults };

    /// `Failed` is answered exactly if the call is on the list, and then nothing is taken.
    fn put(&mut self, bytes: &[u8]) -> Result<(), SinkFault>
        ensures whole { OnOk result (taken_by self.new ≡ taken_by self.old ++ bytes.now) }
        ensures failed_exactly { IsErrOf result SinkFault.Failed ↔ RefusesNow self.old }
        ensures failed { IsErrOf result SinkFault.Failed
            → sink_faults self.new ≡ min (sink_faults self.old + 1) (2 ^ 64 - 1) }
        ensures still { IsErrOf result SinkFault.Failed
            ⊎ (sink_faults self.new ≡ sink_faults self.old) }
        ensures part { (front : List ℕ) × Begins bytes.now front
            × (taken_by self.new ≡ taken_by self.old ++ front) }
        ensures none { OnErr result (taken_by self.new ≡ taken_by self.old) }
        ensures failing { refused_calls self.new ≡ refused_calls self.old }
        ensures calls { puts_made self.new ≡ min (puts_made self.old + 1) (2 ^ 64 - 1) }
        ensures later { sink_faults self.old ≤ sink_faults self.new }
    {
        if self.fails_now() {
            self.faults = self.faults.saturating_add(1);
            return Err(SinkFault::Failed);
        }
        match self.taken.extend_from_slice(bytes) {
            Ok(()) => Ok(()),
            Err(_) => Err(SinkFault::OutOfMemory),
        }
    }
}
