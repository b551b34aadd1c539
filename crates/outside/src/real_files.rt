//! The real files. Nothing is reported of what they hold.

ghost use Rattle.std.specs.Prelude.{◌≡◌, None};
ghost use Rattle.outside.specs.HostState.{host_faults, host_write_faults};

use crate::bytes::read_all;
use crate::files::{Files, ReadFault, WriteFault};
use crate::guarded_files::{GuardedFiles, host_may_replace};
use crate::replacing::replace;
use std::alloc::Global;
use std::{fs, rt};

/// The real files. The counts rise at each failure.
#[derive(Drop)]
pub struct HostFiles<R: rt::Files + Drop> {
    host: R,
    alloc: Global,
    faults: u64,
    write_faults: u64,
}

impl<R: rt::Files + Drop> HostFiles<R> {
    /// The files of a host, none of them asked for yet. Takes no memory.
    pub fn new(alloc: Global, host: R) -> HostFiles<R>
        ensures faults { host_faults result ≡ 0 }
        ensures write_faults { host_write_faults result ≡ 0 }
    {
        HostFiles {
            host,
            alloc,
            faults: 0,
            write_faults: 0,
        }
    }
}

impl<R: rt::Files + Drop> Files for HostFiles<R> {
    ghost Tells = { ⊥ };

    ghost file = { λ _ _. None };

    ghost faults = { λ h. h.faults };

    ghost write_faults = { λ h. h.write_faults };

    fn read(&mut self, alloc: Global, name: &str, limit: usize) -> Result<Vec<u8>, ReadFault> {
        let result = match fs::open(&self.host, name) {
            Ok(mut file) => read_all(&mut file, alloc, limit),
            Err(_) => Err(ReadFault::Failed),
        };
        if matches!(&result, Err(ReadFault::Failed)) {
            self.faults = self.faults.saturating_add(1);
        }
        result
    }

    /// A file that is there is replaced in one piece. `OutOfMemory` precedes anything is written.
    fn write(&mut self, name: &str, bytes: &[u8]) -> Result<(), WriteFault> {
        let result = replace(&self.host, self.alloc, name, bytes);
        if matches!(&result, Err(WriteFault::Failed)) {
            self.faults = self.faults.saturating_add(1);
            self.write_faults = self.write_faults.saturating_add(1);
        }
        result
    }
}

impl<R: rt::Files + Drop> GuardedFiles for HostFiles<R> {
    fn may_replace(&mut self, output: &str, input: &str, front: &[u8]) -> Result<bool, ReadFault> {
        let result = host_may_replace(&self.host, self.alloc, output, input, front);
        if matches!(&result, Err(ReadFault::Failed)) {
            self.faults = self.faults.saturating_add(1);
        }
        result
    }
}
