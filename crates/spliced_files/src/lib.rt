//! A fuse file of one device with the fuses of another in place of its own: its header, its notes and its test vectors are
//! kept.
#![tactic(auto)]

mod header;
mod kept;
mod pieces;
mod splicing;

pub use splicing::spliced;
