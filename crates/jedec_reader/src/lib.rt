//! The fuses and test vectors that the bytes of a fuse file say: its words, its fields, and what they say together.
#![tactic(auto)]

mod contents;
mod entries;
mod field;
mod field_list;
mod frame;
mod fuse_file;
mod fuse_levels;
mod level_table;
mod pin_order;
mod reading;
mod said;
mod vectors;
mod words;

pub use entries::{are_test_characters, characters, is_among, is_each_pin, levels, pin_numbers};
pub use field_list::fields;
pub use frame::{frame_of, place_of};
pub use fuse_file::FuseFile;
pub use jedec_file::JedecFault;
pub use reading::read;
pub use words::{first_word, is_number, only_level, only_number, only_sum, short_number, trimmed};
