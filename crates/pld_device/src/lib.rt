//! A device by its table: what its column pairs carry, its cells, its rows and its fuses.
#![tactic(auto)]

mod carry;
mod cell;
mod chip;
mod device;
mod enable;
mod fixed;
mod flip;
mod fuse_bit;
mod fuses;
mod kinds;
mod laws;
mod loaded;
mod loading;
mod lookups;
mod part;
mod sample;

pub use carry::Carry;
pub use cell::Cell;
pub use chip::Chip;
pub use device::Device;
pub use enable::Enable;
pub use fixed::wrong_fuse;
pub use flip::Flip;
pub use fuse_bit::FuseBit;
pub use fuses::Fuses;
pub use kinds::Kinds;
pub use laws::{rows, tables};
pub use loaded::{Loaded, load};
pub use lookups::{cell_on, pair_of_cell, pair_of_pin};
pub use part::Part;
pub use sample::Sample;
