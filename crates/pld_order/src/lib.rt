//! An order of the vertices of a graph in which none reads itself or a later one, or a loop; and paths.
#![tactic(auto)]

mod laws;
mod leading;
mod loops;
mod ordering;
mod paths;
mod vertex_set;
mod vertices;

pub use laws::order_or_loop;
pub use loops::LoopFound;
pub use ordering::order;
pub use paths::path;
pub use vertex_set::VertexSet;
