//! A device's look-ups, with what the laws say of the numbers that they answer.

ghost use Rattle.std.specs.Prelude.{◌≡◌, ◌+◌, ◌<◌, ◌≤◌, length, slice_get, Some};
ghost use Rattle.device_logic.specs.Prelude.{cell_at};
ghost use Rattle.device_logic.specs.Array.{CarryInRange, EnableInRange};

use pld_device::{Carry, Cell, Device, Loaded};

/// The cell of a number.
pub fn cell_of<D: Device>(device: &Loaded<D>, index: u8) -> Cell
    requires { index < length D.table.cells }
    ensures found { result ≡ cell_at D.table index }
    ensures pin { result.pin < 32 }
    ensures rows { result.first + result.room ≤ D.table.rows }
    ensures enable { EnableInRange D.table result.enable }
{
    device.cell(index)
}

/// What a pair of columns carries.
pub fn carry_of<D: Device>(device: &Loaded<D>, pair: u16) -> Carry
    requires { pair < length D.table.pairs }
    ensures found { slice_get D.table.pairs pair ≡ Some result }
    ensures range { CarryInRange D.table result }
{
    device.carries(pair)
}
