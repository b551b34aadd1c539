//! The places of a device's pins and cells in its table.

ghost use Rattle.std.specs.Prelude.{◌≡◌, ◌<◌, ◌==◌, ℕ, IfSome, Some, length, position, slice_get};
ghost use Rattle.pld_device.specs.Pins.{carries_cell, cell_on, pair_pins};

use crate::carry::Carry;
use crate::device::Device;
use crate::loaded::Loaded;

/// The cell on a pin. Takes no memory.
pub fn cell_on<D: Device>(device: &Loaded<D>, pin: u8) -> Option<u8>
    ensures cell { result ≡ cell_on D.table pin }
    ensures within { IfSome result (λ c. c < length D.table.cells) }
{
    for index in 0..device.cells() {
        if device.cell(index).pin == pin {
            return Some(index);
        }
    }
    None
}

/// The pin that a pair carries, or the pin of the cell.
fn pin_carried<D: Device>(device: &Loaded<D>, pair: u16) -> u8
    requires { pair < length D.table.pairs }
    ensures { slice_get (pair_pins D.table) pair ≡ Some result }
{
    match device.carries(pair) {
        Carry::Pin(pin) => pin,
        Carry::Cell(cell) => device.cell(cell).pin,
    }
}

/// The pair of columns that carries a pin, or the cell on it. Takes no memory.
pub fn pair_of_pin<D: Device>(device: &Loaded<D>, pin: u8) -> Option<u16>
    ensures pair { result ≡ position (λ (p : ℕ). p == pin) (pair_pins D.table) }
    ensures within { IfSome result (λ p. p < length D.table.pairs) }
{
    for pair in 0..device.columns() / 2 {
        if pin_carried::<D>(device, pair) == pin {
            return Some(pair);
        }
    }
    None
}

/// The pair of columns that carries a cell. Takes no memory.
pub fn pair_of_cell<D: Device>(device: &Loaded<D>, cell: u8) -> Option<u16>
    ensures pair { result ≡ position (carries_cell cell) D.table.pairs }
    ensures within { IfSome result (λ p. p < length D.table.pairs) }
{
    for pair in 0..device.columns() / 2 {
        if device.carries(pair).is_cell(cell) {
            return Some(pair);
        }
    }
    None
}
