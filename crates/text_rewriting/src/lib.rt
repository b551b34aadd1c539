//! What is at the front of a text in pieces, and what is put in its place.
#![tactic(auto)]

mod bound;
mod called;
mod digits;
mod directives;
mod front;
mod gather;
mod gathered;
mod kept;
mod replaced;
mod rules;
mod spoken;
mod unread;

pub use front::{Change, Front, look};
pub use gathered::Gathered;
pub use unread::Unread;
