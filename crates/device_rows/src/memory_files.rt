//! Files and a sink in memory: what they hold, and that they fail if they have to.

use outside::{Files, MemoryFiles, MemorySink, ReadFault, Sink, SinkFault, SureFiles};
use pld_base::OutOfMemory;
use std::alloc::Global;

/// Whether a read gives these bytes.
fn gives(read: &Result<Vec<u8>, ReadFault>, bytes: &[u8]) -> bool {
    match read {
        Ok(found) => found.as_slice() == bytes,
        Err(_) => false,
    }
}

/// Whether files in memory fail at the second call, and answer all others.
pub fn memory_files(alloc: Global) -> Result<[bool; 7], OutOfMemory> {
    let mut files = MemoryFiles::new(alloc);
    files.add("a", b"one")?;
    files.fail(2)?;
    Ok([
        gives(&files.read(alloc, "a", 3), b"one"),
        files.read(alloc, "a", 3) == Err(ReadFault::Failed),
        // At most two bytes, and then an absent name.
        files.read(alloc, "a", 2) == Err(ReadFault::TooLong),
        files.read(alloc, "b", 2) == Err(ReadFault::Failed),
        files.write("b", b"two") == Ok(()),
        files.get("b") == Some(b"two".as_slice()),
        files.get("c") == None,
    ])
}

/// Whether sure files never fail; an absent name reads as no bytes.
pub fn sure_files(alloc: Global) -> Result<[bool; 4], OutOfMemory> {
    let mut files = SureFiles::new(alloc);
    files.add("a", b"one")?;
    Ok([
        files.write("b", b"two") == Ok(()),
        files.get("b") == Some(b"two".as_slice()),
        gives(&files.read(alloc, "c", 3), b""),
        gives(&files.read(alloc, "a", 3), b"one"),
    ])
}

/// Whether a sink in memory appends, and fails at the second call.
pub fn memory_sink(alloc: Global) -> Result<[bool; 4], OutOfMemory> {
    let mut sink = MemorySink::new(alloc);
    sink.fail(2)?;
    Ok([
        sink.put(b"one ") == Ok(()),
        sink.put(b"lost") == Err(SinkFault::Failed),
        sink.put(b"two") == Ok(()),
        sink.bytes() == b"one two".as_slice(),
    ])
}
