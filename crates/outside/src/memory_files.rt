//! Files in memory.

ghost use Rattle.std.specs.Prelude.{⊤, ◌≡◌, ◌≢◌, ℕ, ◌≤◌, ◌<◌, ◌+◌, ◌-◌, ◌^◌, ◌↔◌, ◌⊎◌, min, List, [], ◌∷◌, ◌++◌, length, IfOk, OnOk, OnErr, IsErrOf, IsTrue, Option, Some, None, option_copied};
ghost use Rattle.outside.specs.Causes.{Rose};
ghost use Rattle.outside.specs.Memory.{bytes_in, FailsNext};
ghost use Rattle.outside.specs.MemoryState.{held, FailsNow, failing_calls, calls_made, faults_of, write_faults_of, SameCounts, SameMemory};
ghost use Rattle.outside.specs.Outside.{bytes_at, MayReplace, SameFiles, SameBut};

use crate::files::{Files, ReadFault, WriteFault};
use crate::guarded_files::{GuardedFiles, may_lose};
use pld_base::OutOfMemory;
use std::alloc::Global;
use std::collections::BTreeMap;

/// Files in memory. A call whose number, counted from 1 over reads and writes together, is on the list
/// of those that fail answers `Failed`, and so does a read of an absent name.
#[derive(Drop)]
pub struct MemoryFiles {
    alloc: Global,
    files: BTreeMap<String, Vec<u8>>,
    failing: Vec<u32>,
    calls: u64,
    faults: u64,
    write_faults: u64,
}

impl MemoryFiles {
    /// No files, no calls and none that is to fail. Takes no memory.
    pub fn new(alloc: Global) -> MemoryFiles
        ensures files { (name : List ℕ) → held result name ≡ None }
        ensures failing { failing_calls result ≡ [] }
        ensures counts { (calls_made result ≡ 0) × (faults_of result ≡ 0)
            × (write_faults_of result ≡ 0) }
    {
        MemoryFiles {
            alloc,
            files: BTreeMap::new(alloc),
            failing: Vec::new(alloc),
            calls: 0,
            faults: 0,
            write_faults: 0,
        }
    }

    /// Puts the bytes under the name, in place of older ones. It counts as no call.
    pub fn add(&mut self, name: &str, bytes: &[u8]) -> Result<(), OutOfMemory>
        ensures ok { OnOk result (held self.new name.now ≡ Some bytes.now) }
        ensures err { OnErr result (SameMemory self.old self.new) }
        ensures others { SameBut name.now (held self.old) (held self.new) }
        ensures failing { failing_calls self.new ≡ failing_calls self.old }
        ensures counts { SameCounts self.old self.new }
    {
        let key = String::from_str(self.alloc, name)?;
        let value = Vec::from_slice(self.alloc, bytes)?;
        self.files.insert(key, value)?;
        Ok(())
    }

    /// Makes the call of that number fail.
    pub fn fail(&mut self, call: u32) -> Result<(), OutOfMemory>
        ensures ok { OnOk result (failing_calls self.new ≡ failing_calls self.old ++ call ∷ []) }
        ensures err { OnErr result (SameMemory self.old self.new) }
        ensures files { SameFiles (held self.old) (held self.new) }
        ensures counts { SameCounts self.old self.new }
    {
        self.failing.push(call)?;
        Ok(())
    }

    /// The bytes under a name. Takes no memory.
    pub fn get(&self, name: &str) -> Option<&[u8]>
        ensures { option_copied result ≡ held self.now name.now }
    {
        match self.files.get(name) {
            Some(bytes) => Some(bytes.as_slice()),
            None => None,
        }
    }

    /// Whether a write under `output` loses nothing.
    fn is_free(&self, output: &str, input: &str, front: &[u8]) -> bool
        ensures { IsTrue result ↔ MayReplace (held self.now) output.now input.now front.now }
    {
        match self.get(output) {
            None => true,
            Some(bytes) => may_lose(output, input, bytes, front),
        }
    }

    /// Counts a call, and says whether it is on the list of those that fail.
    fn fails_now(&mut self) -> bool
        ensures fails { IsTrue result ↔ FailsNext self.old.failing.items self.old.calls }
        ensures counted { self.new
            ≡ record self.old { calls = min (self.old.calls + 1) (2 ^ 64 - 1) } }
    {
        self.calls = self.calls.saturating_add(1);
        match u32::try_from(self.calls) {
            Ok(call) => self.failing.contains(&call),
            Err(_) => false,
        }
    }

    /// Reads a file if the call is on no list.
    fn read_now(&mut self, alloc: Global, name: &str, limit: usize) -> Result<Vec<u8>, ReadFault>
        ensures bytes { IfOk result (λ v. bytes_in self.old.files name.now ≡ Some v.items) }
        ensures within { IfOk result (λ v. length v.items ≤ limit) }
        ensures too_long { IsErrOf result ReadFault.TooLong
            ↔ (limit < length (bytes_at (held self.old) name.now)) }
        ensures absent { IsErrOf result ReadFault.Failed ↔ (bytes_in self.old.files name.now
            ≡ None) }
        ensures failed { IsErrOf result ReadFault.Failed
            → self.new.faults ≡ min (self.old.faults + 1) (2 ^ 64 - 1) }
        ensures still { IsErrOf result ReadFault.Failed ⊎ (self.new.faults ≡ self.old.faults) }
        ensures later { self.old.faults ≤ self.new.faults }
        ensures rest { self.new ≡ record self.old { faults = self.new.faults } }
    {
        match self.files.get(name) {
            None => {
                self.faults = self.faults.saturating_add(1);
                Err(ReadFault::Failed)
            }
            Some(bytes) => {
                if limit < bytes.len() {
                    return Err(ReadFault::TooLong);
                }
                match Vec::from_slice(alloc, bytes.as_slice()) {
                    Ok(copy) => Ok(copy),
                    Err(_) => Err(ReadFault::OutOfMemory),
                }
            }
        }
    }
}

impl Files for MemoryFiles {
    ghost Tells = { ⊤ };

    ghost file = { λ m name. bytes_in m.files name };

    ghost faults = { λ m. m.faults };

    ghost write_faults = { λ m. m.write_faults };

    /// `Failed` is answered exactly if the call is on the list or the name is absent, `TooLong`
    /// exactly if it is neither and the file is longer than the limit.
    fn read(&mut self, alloc: Global, name: &str, limit: usize) -> Result<Vec<u8>, ReadFault>
        ensures bytes { IfOk result (λ v. held self.old name.now ≡ Some v.items) }
        ensures within { IfOk result (λ v. length v.items ≤ limit) }
        ensures failed_exactly { IsErrOf result ReadFault.Failed
            ↔ (FailsNow self.old ⊎ (held self.old name.now ≡ None)) }
        ensures too_long_only { IsErrOf result ReadFault.TooLong
            → limit < length (bytes_at (held self.old) name.now) }
        ensures too_long_where { limit < length (bytes_at (held self.old) name.now)
            → IsErrOf result ReadFault.TooLong ⊎ FailsNow self.old }
        ensures failed { IsErrOf result ReadFault.Failed
            → faults_of self.new ≡ min (faults_of self.old + 1) (2 ^ 64 - 1) }
        ensures still { IsErrOf result ReadFault.Failed
            ⊎ (faults_of self.new ≡ faults_of self.old) }
        ensures same { SameFiles (held self.old) (held self.new) }
        ensures failing { failing_calls self.new ≡ failing_calls self.old }
        ensures calls { calls_made self.new ≡ min (calls_made self.old + 1) (2 ^ 64 - 1) }
        ensures later { faults_of self.old ≤ faults_of self.new }
        ensures no_write { write_faults_of self.new ≡ write_faults_of self.old }
    {
        if self.fails_now() {
            self.faults = self.faults.saturating_add(1);
            return Err(ReadFault::Failed);
        }
        self.read_now(alloc, name, limit)
    }

    /// `Failed` is answered exactly if the call is on the list.
    fn write(&mut self, name: &str, bytes: &[u8]) -> Result<(), WriteFault>
        ensures written { OnOk result (held self.new name.now ≡ Some bytes.now) }
        ensures failed_exactly { IsErrOf result WriteFault.Failed ↔ FailsNow self.old }
        ensures failed { IsErrOf result WriteFault.Failed
            → faults_of self.new ≡ min (faults_of self.old + 1) (2 ^ 64 - 1) }
        ensures failed_write { IsErrOf result WriteFault.Failed
            → write_faults_of self.new ≡ min (write_faults_of self.old + 1) (2 ^ 64 - 1) }
        ensures still { IsErrOf result WriteFault.Failed
            ⊎ ((faults_of self.new ≡ faults_of self.old)
            × (write_faults_of self.new ≡ write_faults_of self.old)) }
        ensures memory { OnErr result (SameFiles (held self.old) (held self.new)) }
        ensures others { SameBut name.now (held self.old) (held self.new) }
        ensures failing { failing_calls self.new ≡ failing_calls self.old }
        ensures calls { calls_made self.new ≡ min (calls_made self.old + 1) (2 ^ 64 - 1) }
        ensures later { faults_of self.old ≤ faults_of self.new }
        ensures later_write { write_faults_of self.old ≤ write_faults_of self.new }
    {
        if self.fails_now() {
            self.faults = self.faults.saturating_add(1);
            self.write_faults = self.write_faults.saturating_add(1);
            return Err(WriteFault::Failed);
        }
        match self.add(name, bytes) {
            Ok(()) => Ok(()),
            Err(_) => Err(WriteFault::OutOfMemory),
        }
    }
}

impl GuardedFiles for MemoryFiles {
    /// The answer is `Failed` exactly if the call is on the list. Takes no memory.
    fn may_replace(&mut self, output: &str, input: &str, front: &[u8]) -> Result<bool, ReadFault>
        ensures may { IfOk result (λ may. IsTrue may
            ↔ MayReplace (held self.old) output.now input.now front.now) }
        ensures failed_exactly { IsErrOf result ReadFault.Failed ↔ FailsNow self.old }
        ensures failed { IsErrOf result ReadFault.Failed
            → faults_of self.new ≡ min (faults_of self.old + 1) (2 ^ 64 - 1) }
        ensures still { IsErrOf result ReadFault.Failed ⊎ (faults_of self.new ≡ faults_of self.old) }
        ensures same { SameFiles (held self.old) (held self.new) }
        ensures later { faults_of self.old ≤ faults_of self.new }
        ensures no_write { write_faults_of self.new ≡ write_faults_of self.old }
        ensures calls { calls_made self.new ≡ min (calls_made self.old + 1) (2 ^ 64 - 1) }
    {
        if self.fails_now() {
            self.faults = self.faults.saturating_add(1);
            return Err(ReadFault::Failed);
        }
        Ok(self.is_free(output, input, front))
    }
}
