//! What people have in place of a fuse file, and what programmers want: forms of the fuses and vectors of a device.
#![tactic(auto)]

mod binary_form;
mod finding;
mod forms;
mod line_ends;
mod packing;
mod places;
mod repairs;
mod same;
mod signature;
mod text;
mod texts;
mod warnings;

pub use binary_form::{BinaryRead, binary_file, binary_fuses, binary_len, is_binary};
pub use finding::Finding;
pub use forms::{Form, in_form, signature_of, signed_file};
pub use line_ends::with_line_ends;
pub use packing::binary;
pub use repairs::{RepairedFile, repaired};
pub use signature::signed;
pub use text::written;
pub use warnings::{are_alike, array_of, is_row_in_use};
