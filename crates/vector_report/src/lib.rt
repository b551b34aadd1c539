//! `vectors DEVICE IN OUT`: a fuse file with vectors that find its wrong fuses, and what they find.
#![tactic(auto)]

mod fields;
mod making;
mod saying;
mod splicing;

pub use making::vectors_ending;
