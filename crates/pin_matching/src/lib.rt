//! Pins for signals, each of which has its wishes: the first assignment, or the fewest signals that are too many.
#![tactic(auto)]

mod choice;
mod fault;
mod laws;
mod matching;
mod reaching;
mod wishes;

pub use choice::first_assignment;
pub use fault::Unplaced;
pub use laws::{answers_are_one, crowded_cannot_be_placed};
pub use wishes::Wish;
