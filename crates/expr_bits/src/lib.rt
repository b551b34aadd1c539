//! Set expressions as their bits in the arena of bit expressions: words, values, and expressions.
#![tactic(auto)]

mod building;
mod compare;
mod device_scope;
mod expanding;
mod forms;
mod keeping;
mod meeting;
mod on_device;
mod pieces;
mod positions;
mod reading;
mod reads;
mod rows;
mod sets;
mod shaping;
mod sources;
mod steps;
mod value_operators;
mod walking;
mod word_operators;
mod work;

pub use compare::{Compared, kept_relation, relation_word};
pub use device_scope::DeviceScope;
pub use forms::{Bits, Form, one_bit};
pub use meeting::{dropped, meet_word, width_of_both};
pub use on_device::OnDevice;
pub use positions::{digit_word, kept_word, resized_word, spread_word};
pub use reading::read_signal;
pub use sets::with_member;
pub use value_operators::{both, under};
pub use word_operators::{complement_word, difference_word, operator_word, unary_word};
