//! A device's look-ups, with what its laws say of them.

ghost use Rattle.std.specs.Prelude.{◌≡◌, ◌+◌, ◌/◌, ◌<◌, ◌≤◌, length, slice_get, Some};
ghost use Rattle.pld_device.specs.Table.{cell_at};
ghost use Rattle.fuse_listing.specs.Listing.{CarryIsThere};

use pld_device::{Carry, Cell, Device, Loaded};

/// The cell of a number. Takes no memory.
pub fn cell_of<D: Device>(device: &Loaded<D>, index: u8) -> Cell
    requires { index < length D.table.cells }
    ensures found { result ≡ cell_at D.table index }
    ensures rows { result.first + result.room ≤ 65535 }
{
    device.cell(index)
}

/// What the pair of a column carries. Takes no memory.
pub fn carry_at<D: Device>(device: &Loaded<D>, column: u16) -> Carry
    requires { column < D.table.columns }
    ensures found { slice_get D.table.pairs (column / 2) ≡ Some result }
    ensures is_there { CarryIsThere D.table result }
{
    device.carries(column / 2)
}
