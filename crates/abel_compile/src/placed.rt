//! A placed module with its names.

use abel_tree::Names;
use name_uses::ModuleParts;
use pld_base::Model;
use pld_device::{Device, Loaded};

/// A placed module on its device, its names, and the names as its source declares them.
#[derive(Drop)]
pub(crate) struct PlacedModule<'a, D: Device> {
    pub(crate) device: &'a Loaded<D>,
    pub(crate) model: Model,
    pub(crate) module: ModuleParts<'a>,
    pub(crate) declared: Names,
    pub(crate) names: Names,
}

impl<'a, D: Device> PlacedModule<'a, D> {
    /// The device, for as long as the module is borrowed. Takes no memory.
    pub(crate) fn device(&self) -> &Loaded<D> {
        self.device
    }
}
