//! The syntax tree of a source, and the names that its declarations make.
#![tactic(auto)]

mod attributes;
mod copies;
mod declarations;
mod diagrams;
mod expressions;
mod names;
mod ranked;
mod sections;
mod statements;
mod tables;
mod words;

pub use attributes::Attributes;
pub use declarations::Decl;
pub use diagrams::{Arm, Case, CaseArm, Diagram, Goal, If, State};
pub use expressions::{Expr, Member};
pub use names::{Declared, Meaning, Names};
pub use ranked::{Ranked, earlier, is_before};
pub use sections::{Module, Section};
pub use statements::{Assign, Stmt, When};
pub use tables::{Row, Table, VectorRow, Vectors};
pub use words::{Binary, DontCare, Extension, Item, Number, Sign, Span, Unary, Word};
