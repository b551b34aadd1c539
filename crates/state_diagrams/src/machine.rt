//! What a state diagram is over.

use pld_device::Device;
use section_targets::{Aim, SectionScope};

/// The registers of a state diagram, over the names of its source.
#[derive(Drop)]
pub(crate) struct Machine<'a, D: Device> {
    pub scope: &'a SectionScope<'a, D>,
    pub registers: &'a [Aim],
}
