//! A device with its fuses: what its rows read, its rows as masks, and its logic, with its cells in order.
#![tactic(auto)]

mod array;
mod fault;
mod graphs;
mod laws;
mod loading;
mod logic;
mod lookups;
mod macrocells;
mod masking;
mod pairing;
mod reads;
mod row_mask;
mod rows;

pub use array::FuseArray;
pub use fault::SimFault;
pub use laws::{no_loop, one_layer};
pub use loading::load;
pub use logic::DeviceLogic;
pub use lookups::{carry_of, cell_of};
pub use masking::row_masks;
pub use pairing::{pair_count, pair_cubes};
pub use row_mask::RowMask;
