//! The names of a source on a device.

use pld_device::{Device, Loaded};
use set_expr::Scope;

/// The names of a source, and the device that they are on.
#[derive(Drop)]
pub struct OnDevice<'a, D: Device> {
    pub device: &'a Loaded<D>,
    pub scope: &'a Scope<'a>,
}
