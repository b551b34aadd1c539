//! What lies outside the program: files by their names, and sinks for bytes; those of the host, and ones in memory.
#![tactic(auto)]

mod bytes;
mod files;
mod guarded_files;
mod memory_files;
mod memory_sink;
mod real_files;
mod real_sink;
mod replacing;
mod sink;
mod sure_files;

pub use files::{Files, ReadFault, WriteFault};
pub use guarded_files::GuardedFiles;
pub use memory_files::MemoryFiles;
pub use memory_sink::MemorySink;
pub use real_files::HostFiles;
pub use real_sink::HostSink;
pub use sink::{Sink, SinkFault};
pub use sure_files::SureFiles;
