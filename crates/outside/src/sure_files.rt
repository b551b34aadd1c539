//! Files in memory that never fail.

ghost use Rattle.std.specs.Prelude.{⊤, ◌≡◌, ℕ, ◌≤◌, ◌<◌, ◌↔◌, List, length, Option, Some, None, IfOk, OnOk, OnErr, IsErrOf, option_copied};
ghost use Rattle.outside.specs.Memory.{bytes_in};
ghost use Rattle.outside.specs.MemoryState.{sure_held};
ghost use Rattle.outside.specs.Outside.{bytes_at, SameFiles, SameBut};

use crate::files::{Files, ReadFault, WriteFault};
use crate::memory_files::MemoryFiles;
use pld_base::OutOfMemory;
use std::alloc::Global;

/// Files in memory that never fail; both counts are always 0. An absent name reads as no bytes.
#[derive(Drop)]
pub struct SureFiles {
    inner: MemoryFiles,
}

impl SureFiles {
    /// No files. Takes no memory.
    pub fn new(alloc: Global) -> SureFiles
        ensures { (name : List ℕ) → sure_held result name ≡ None }
    {
        SureFiles {
            inner: MemoryFiles::new(alloc),
        }
    }

    /// Puts the bytes under the name, in place of older ones.
    pub fn add(&mut self, name: &str, bytes: &[u8]) -> Result<(), OutOfMemory>
        ensures ok { OnOk result (sure_held self.new name.now ≡ Some bytes.now) }
        ensures err { OnErr result (SameFiles (sure_held self.old) (sure_held self.new)) }
        ensures others { SameBut name.now (sure_held self.old) (sure_held self.new) }
    {
        self.inner.add(name, bytes)
    }

    /// The bytes under a name. Takes no memory.
    pub fn get(&self, name: &str) -> Option<&[u8]>
        ensures { option_copied result ≡ sure_held self.now name.now }
    {
        self.inner.get(name)
    }
}

impl Files for SureFiles {
    ghost Tells = { ⊤ };

    ghost file = { λ m name. bytes_in m.inner.files name };

    ghost faults = { λ _. 0 };

    ghost write_faults = { λ _. 0 };

    fn read(&mut self, alloc: Global, name: &str, limit: usize) -> Result<Vec<u8>, ReadFault> {
        match self.inner.get(name) {
            None => Ok(Vec::new(alloc)),
            Some(bytes) => {
                if limit < bytes.len() {
                    return Err(ReadFault::TooLong);
                }
                match Vec::from_slice(alloc, bytes) {
                    Ok(copy) => Ok(copy),
                    Err(_) => Err(ReadFault::OutOfMemory),
                }
            }
        }
    }

    fn write(&mut self, name: &str, bytes: &[u8]) -> Result<(), WriteFault> {
        match self.inner.add(name, bytes) {
            Ok(()) => Ok(()),
            Err(_) => Err(WriteFault::OutOfMemory),
        }
    }
}
