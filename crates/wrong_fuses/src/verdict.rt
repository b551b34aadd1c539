//! What the vectors of a fuse file say of its wrong fuses.

use device_logic::SimFault;
use device_sim::Mismatch;
use pld_base::ListOf;

/// What the vectors say of a chip with one wrong fuse.
#[derive(Drop)]
pub enum Verdict {
    /// This many of the first vectors find it, whatever the level of pins that no vector drives.
    Found(u32),
    /// The chip behaves like the right one, from every state.
    Same,
    /// With one level of the pins that no vector drives, all vectors agree; yet the chip differs at some state.
    Missed,
    /// The chip isn't simulated, for this reason: a loop, or a reset that depends on a register.
    Refused(SimFault),
    /// The chip is in another mode of the device.
    OtherMode,
}

/// A fuse, and what is said of it if it is wrong.
#[derive(Drop)]
pub struct Judged {
    pub fuse: u16,
    pub verdict: Verdict,
}

/// How many vectors there are, what the right device disagrees with if pins that no vector drives are at 0 and if they
/// are at 1, and the verdict on each fuse.
#[derive(Drop)]
pub struct Grade {
    pub vectors: u32,
    pub low: ListOf<Mismatch>,
    pub high: ListOf<Mismatch>,
    pub judged: ListOf<Judged>,
}
