//! The model of a fuse file: the device by its name, in the mode that the file's fuses say.
#![tactic(auto)]

mod laws;
mod reading;

pub use laws::models;
pub use reading::model_of;
