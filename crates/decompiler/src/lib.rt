//! The source of a device's fuses; it is accepted and compiled, and says what the fuses do.
#![tactic(auto)]

mod compile_laws;
mod decompiling;
mod device_fuses;
mod lines;
mod pins;
mod products;
mod source_laws;

pub use compile_laws::{compiles, recompiled_runs};
pub use decompiling::decompile;
pub use device_logic::SimFault;
pub use source_laws::sources_are_right;
