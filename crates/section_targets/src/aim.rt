//! The signals of targets.

use pld_base::Place;

/// A signal at the place at which a target names it.
#[derive(Clone, Copy, PartialEq, Eq)]
pub struct Aim {
    pub signal: usize,
    pub place: Place,
}
