//! Macros and directives: what is at the front of a source, and what its expanded text is.
#![tactic(auto)]

mod arguments;
mod blocks;
mod call;
mod definitions;
mod directive;
mod gaps;
mod lengths;
mod operator;
mod readings;
mod room;
mod stretches;
mod tables;
mod tellings;
mod tokens;
mod trimming;
mod values;
mod wholes;
mod words;

pub use arguments::read_arguments;
pub use blocks::read_block;
pub use call::Call;
pub use definitions::{read_macro, skip_macro_word};
pub use directive::Directive;
pub use gaps::{is_next, skip_comment, skip_gap_to};
pub use lengths::{later_len, word_len};
pub use readings::{Each, read_const, read_counted, read_defined, read_each};
pub use stretches::{STRETCH, skip_without};
pub use tables::{Macro, Tables};
pub use tellings::{read_expression, read_radix};
pub use tokens::{string_len, token_len};
pub use words::{read, read_word};
