//! What a page says of a design and its device, as records without a word of HTML: its pins, its cells, and the run of its vectors.
#![tactic(auto)]

mod cell_facts;
mod drives;
mod idle;
mod laws;
mod level_reads;
mod model;
mod phases;
mod pin_facts;
mod pin_names;
mod run;

pub use cell_facts::CellFacts;
pub use drives::Drives;
pub use idle::IdleLevels;
pub use laws::{pages_tell_the_device, points_drive_the_same};
pub use model::{PageModel, page_model_of};
pub use phases::has_clock;
pub use pin_facts::{PinFacts, PinUse};
pub use pin_names::{is_assigned, label_of};
pub use run::{RunModel, run_of};
