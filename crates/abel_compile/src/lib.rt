//! From the bytes of a source to its fuse file, for every device.
#![tactic(auto)]

mod compiled;
mod compiling;
mod laws;
mod placed;
mod telling;

pub use compile_phases::{CompileFault, SourceFault};
pub use compiled::Compiled;
pub use compiling::compile;
