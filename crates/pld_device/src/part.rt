//! What a device's crate writes of it: its numbers, its look-ups and the laws of its table.

use crate::carry::Carry;
use crate::cell::Cell;
use crate::chip::Chip;
use crate::fuse_bit::FuseBit;

/// A device as its crate gives it. `load` makes of it what code for all devices uses.
pub trait Part {
    ghost use Rattle.std.specs.Prelude.{◌≡◌, ◌<◌, Some, slice_get, length};
    ghost use Rattle.pld_device.specs.Laws.{IsDevice};
    ghost use Rattle.pld_device.specs.Table.{Table, chip_of, inverted_at, registered_at};

    /// The whole table.
    ghost table: { Self → Table };

    /// The device's numbers. Takes no memory.
    fn chip(&self) -> Chip
        ensures { result ≡ chip_of (table self.now) };

    /// What a pair of columns carries, pairs from 0. Takes no memory.
    fn carries(&self, pair: u16) -> Carry
        requires { pair < length (table self.now).pairs }
        ensures { slice_get (table self.now).pairs pair ≡ Some result };

    /// The cell of a number, from 0. Takes no memory.
    fn cell(&self, index: u8) -> Cell
        requires { index < length (table self.now).cells }
        ensures { slice_get (table self.now).cells index ≡ Some result };

    /// The fuse that says that the cell is inverted, and its level then. Takes no memory.
    fn inverted_at(&self, cell: u8) -> Option<FuseBit>
        requires { cell < length (table self.now).cells }
        ensures { result ≡ inverted_at (table self.now) cell };

    /// The fuse that says that the cell is registered, and its level then. Takes no memory.
    fn registered_at(&self, cell: u8) -> Option<FuseBit>
        requires { cell < length (table self.now).cells }
        ensures { result ≡ registered_at (table self.now) cell };

    /// The fuse that switches the row on. Takes no memory.
    fn row_switch(&self, row: u16) -> Option<u16>
        ensures { result ≡ slice_get (table self.now).row_switches row };

    /// A fuse whose level is the same in every design, from 0. Takes no memory.
    fn fixed(&self, index: u16) -> Option<FuseBit>
        ensures { result ≡ slice_get (table self.now).fixed index };

    ghost sound: { (p : Self) → IsDevice (table p) };
}
