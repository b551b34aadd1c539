//! What a source means: the definitions of the language, and the laws that they keep.
#![tactic(auto)]

mod laws;

pub use laws::formulas_agree;
