//! Bit expressions in one arena, each a constant, a leaf or an operator over earlier ones, and netlists over it.
#![tactic(auto)]

mod arena;
mod fault;
mod netlist;
mod node;
mod reads;

pub use arena::Exprs;
pub use fault::ExprFault;
pub use netlist::{CellWanted, Control, Function, Netlist};
pub use node::{ExprId, Leaf, Node};
pub use reads::Reads;
