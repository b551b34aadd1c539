//! A large source made from a number: ten registers of a GAL22V10 with drawn equations, and a thousand
//! test vectors with the levels that its own run shows.
#![tactic(auto)]

mod draws;
mod equations;
mod literals;
mod machine;
mod text;
mod vectors;

pub use text::demo_text;
