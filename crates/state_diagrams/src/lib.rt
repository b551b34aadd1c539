//! State diagrams: what is refused of them, their guards, and what they contribute.
#![tactic(auto)]

mod arms;
mod choices;
mod goals;
mod guards;
mod machine;
mod matches;
mod numbers;
mod registers;
mod states;
mod values;
mod walking;

pub use walking::walk_diagram;
