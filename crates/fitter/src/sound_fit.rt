//! A netlist over the columns of a device.

ghost use Rattle.std.specs.Prelude.{◌≡◌, length};

use fit_plans::Covering;
use pld_device::{Device, Loaded};

/// A netlist over the pairs of a device, of which those of the registers carry the complement.
#[derive(Drop)]
pub struct SoundFit<'a, D: Device> {
    pub over: Covering<'a>,
    pub device: &'a Loaded<D>,
    pub ghost flip: { over.flip ≡ D.table.flip },
    pub ghost pairs: { over.vars ≡ length D.table.pairs },
}
