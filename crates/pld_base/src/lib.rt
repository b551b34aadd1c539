//! What every crate of the project speaks of: device names, texts, places, digits, levels and points.
#![tactic(auto)]

mod boxed;
mod device_name;
mod digits;
mod levels;
mod list_of;
mod model;
mod name_text;
mod out_of_memory;
mod place;
mod point;

pub use boxed::Boxed;
pub use device_name::DeviceName;
pub use digits::{put_decimal, put_four_digits, put_hex};
pub use levels::{level_at, with_level, with_value};
pub use list_of::ListOf;
pub use model::Model;
pub use name_text::NameText;
pub use out_of_memory::OutOfMemory;
pub use place::Place;
pub use point::{Point, Trace, Vector};
