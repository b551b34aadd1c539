//! What one device's fuses do, done by another device with the same array.
#![tactic(auto)]

mod comparing;
mod control;
mod fault;
mod laws;
mod pairs;
mod polarity;
mod porting;
mod whole_file;

pub use comparing::compare_across;
pub use fault::PortFault;
pub use laws::{each_pair, ported_logics, there_and_back};
pub use pairs::{Pair, counterpart_of, pair_of, replacing};
pub use porting::ported;
pub use whole_file::ported_file;
