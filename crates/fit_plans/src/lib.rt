//! What a cell can carry: covers, plans of cells, and rows of fuses.
#![tactic(auto)]

mod burning;
mod choosing;
mod control_covers;
mod control_fuses;
mod covering;
mod forms;
mod list_laws;
mod lists;
mod owner_laws;
mod plan;
mod trying;
mod turning;
mod workspace;

pub use choosing::{Chosen, Tried, choose};
pub use control_fuses::{CellForm, device_fuses};
pub use covering::Covering;
pub use list_laws::{lists_inside, turned_covers, turned_points};
pub use lists::{Lists, written_lists};
pub use owner_laws::owners;
pub use plan::{CellPlan, Plan, planned_fuses};
pub use trying::has_lists;
pub use turning::{all_turned, turned};
pub use workspace::Workspace;
