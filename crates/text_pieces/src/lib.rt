//! A text in pieces: what is still to be read of it, and a look ahead at it.
#![tactic(auto)]

mod ahead;
mod arguments;
mod blocks;
mod ends;
mod home;
mod mode;
mod piece;
mod place;
mod rest;
mod stop;
mod stops;
mod text;
mod watch;

pub use ahead::Ahead;
pub use mode::Mode;
pub use piece::Piece;
pub use rest::Rest;
pub use watch::Watch;
