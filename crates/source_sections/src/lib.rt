//! What the sections of a source contribute, in their order, and the first of all that is refused of them.
#![tactic(auto)]

mod directives;
mod joining;
mod walking;

pub use joining::contributions;
