//! What a device's fuses say, as a source of pins and sums of products: as data, as text, and as a tree; and what that source
//! means.
#![tactic(auto)]

mod literal;
mod logic_laws;
mod meaning_laws;
mod pin_line;
mod plain_laws;
mod row_laws;
mod run_laws;
mod signal_laws;
mod source;
mod sum_line;
mod tree_laws;

pub use literal::PinLiteral;
pub use logic_laws::{cells, logics};
pub use meaning_laws::{lines, names, sums};
pub use pin_line::PinLine;
pub use plain_laws::plain_texts_expand;
pub use row_laws::rows;
pub use run_laws::runs;
pub use signal_laws::netlists;
pub use source::PinSource;
pub use sum_line::SumLine;
pub use tree_laws::source_texts_are_read;
