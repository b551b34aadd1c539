//! Covers of functions in a pool of cubes: tautology, covering, and prime and irredundant covers.
#![tactic(auto)]

mod allowed;
mod cofactors;
mod complement;
mod covers;
mod cube;
mod expand;
mod irredundant;
mod minimiser;
mod moving;
mod off;
mod passes;
mod pool;
mod reduce;
mod rows;
mod tautology;
mod unate;
mod votes;

pub use cofactors::cofactor;
pub use complement::complement_cube;
pub use covers::{covers_cube, point_outside};
pub use cube::Cube;
pub use minimiser::minimise;
pub use pool::{CubePool, Mark, Range};
pub use tautology::is_tautology;
