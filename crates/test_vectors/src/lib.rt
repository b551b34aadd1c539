//! Test vectors that find the wrong fuses of a device.
#![tactic(auto)]

mod aiming;
mod asked_levels;
mod beginning;
mod chance;
mod chip;
mod climbing;
mod exploring;
mod following;
mod gaining;
mod hidden;
mod hitting;
mod making;
mod right;
mod search;
mod states;
mod suspect;
mod suspects;
mod test;
mod thinning;
mod trial;
mod walking;
mod wiring;

pub use making::test_vectors;
