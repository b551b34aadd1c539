//! The numbers of a device.

use crate::flip::Flip;
use pld_base::DeviceName;

/// What a device's type says of the whole device.
#[derive(Clone, Copy, PartialEq, Eq)]
pub struct Chip {
    /// The device's name.
    pub name: DeviceName,
    /// The number of pins; the last one is the supply.
    pub pins: u8,
    /// The ground pin.
    pub ground_pin: u8,
    /// The number of fuses.
    pub fuses: u16,
    /// The smaller number of fuses that a fuse file may name, else `fuses`.
    pub short: u16,
    /// The columns of a row, two a pair.
    pub columns: u16,
    /// The rows of the array.
    pub rows: u16,
    /// The number of cells.
    pub cells: u8,
    /// The clock's pin, 0 if there isn't one.
    pub clock: u8,
    /// The row that resets every register.
    pub reset: Option<u16>,
    /// The row that presets every register.
    pub preset: Option<u16>,
    /// If the device complements.
    pub flip: Flip,
    /// The pin that may power the chip down, 0 if there isn't one.
    pub power_down: u8,
}
