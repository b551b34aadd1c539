//! What equations, tables and diagrams share: targets, units of nodes, and what is given under a guard.
#![tactic(auto)]

mod aim;
mod assigned;
mod giving;
mod manner;
mod named;
mod naming;
mod nodes;
mod outputs;
mod section_scope;
mod sides;
mod siding;
mod walked;
mod words;

pub use aim::Aim;
pub use assigned::Assigned;
pub use giving::{Giver, Giving, give, give_all};
pub use manner::{Manner, Way};
pub use nodes::{add_node, guard_else};
pub use outputs::check_aims;
pub use section_scope::SectionScope;
pub use sides::{Side, number_of};
pub use siding::refuse_operator;
pub use walked::Walked;
pub use words::meet;
