//! From the netlist of a design to the fuses of any device.
#![tactic(auto)]

mod answer;
mod apart;
mod cell_covering;
mod covering;
mod evaluating;
mod fault;
mod fitting;
mod masks;
mod plan_laws;
mod planning;
mod rising;
mod rooms;
mod shared;
mod shared_rows;
mod sharing;
mod sound_fit;
mod stop;
mod turning;
mod widest;

pub use answer::{Fitted, FittedCell};
pub use cell_covering::{CellCovers, check_at, control_rows, cover_at};
pub use fault::FitFault;
pub use fitting::fit;
pub use masks::turn_mask;
pub use plan_laws::{plans_fit, sound_cover};
pub use rooms::{Overfull, cells_over_room};
pub use shared::{SharedControl, cell_wanted, own_control, pair_count};
pub use sharing::{NotShared, shared_bit};
pub use sound_fit::SoundFit;
pub use stop::Stop;
pub use widest::first_wide;
