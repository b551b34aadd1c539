//! Declarations, statements, state diagrams, tables, sections and whole modules from tokens.
#![tactic(auto)]

mod assignments;
mod declarations;
mod diagrams;
mod goals;
mod items;
mod module;
mod sections;
mod sides;
mod statements;
mod tables;
mod test_vectors;
mod transitions;

pub use declarations::{decls, other_decl};
pub use diagrams::diagram;
pub use items::option;
pub use module::source;
pub use statements::{plain, stmts};
pub use tables::table;
pub use test_vectors::vectors;
