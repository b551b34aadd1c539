//! What a device does doesn't depend on its signature, nor on the last fuse of an ATF22V10C.
#![tactic(auto)]

mod laws;

pub use laws::forms_behave_alike;
