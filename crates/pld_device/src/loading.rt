//! The lists of a device, from what its crate writes of it.

ghost use Rattle.std.specs.Prelude.{◌≡◌};
ghost use Rattle.pld_device.specs.Table.{inverted_by_cell, registered_by_cell};

use crate::carry::Carry;
use crate::cell::Cell;
use crate::fuse_bit::FuseBit;
use crate::part::Part;
use arrayvec::ArrayVec;

/// The cells, from cell 0 on.
pub fn cells_of<P: Part>(part: &P) -> ArrayVec<Cell, 10>
    ensures { result.items ≡ (P.table part.now).cells }
{
    let mut cells = ArrayVec::new();
    for index in 0..part.chip().cells {
        cells.push(part.cell(index));
    }
    cells
}

/// What the pairs of columns carry, from pair 0 on.
pub fn pairs_of<P: Part>(part: &P) -> ArrayVec<Carry, 22>
    ensures { result.items ≡ (P.table part.now).pairs }
{
    let mut pairs = ArrayVec::new();
    for pair in 0..part.chip().columns / 2 {
        pairs.push(part.carries(pair));
    }
    pairs
}

/// By cell, the fuse that says that it is inverted.
pub fn inverted_of<P: Part>(part: &P) -> ArrayVec<Option<FuseBit>, 10>
    ensures { result.items ≡ inverted_by_cell (P.table part.now) }
{
    let mut bits = ArrayVec::new();
    for cell in 0..part.chip().cells {
        bits.push(part.inverted_at(cell));
    }
    bits
}

/// By cell, the fuse that says that it is registered.
pub fn registered_of<P: Part>(part: &P) -> ArrayVec<Option<FuseBit>, 10>
    ensures { result.items ≡ registered_by_cell (P.table part.now) }
{
    let mut bits = ArrayVec::new();
    for cell in 0..part.chip().cells {
        bits.push(part.registered_at(cell));
    }
    bits
}

/// By row, the fuse that switches it on, as far as there is one.
pub fn switches_of<P: Part>(part: &P) -> ArrayVec<u16, 64>
    ensures { result.items ≡ (P.table part.now).row_switches }
{
    let mut switches = ArrayVec::new();
    for row in 0..64 {
        let Some(fuse) = part.row_switch(row) else {
            return switches;
        };
        switches.push(fuse);
    }
    switches
}

/// The fuses whose level is the same in every design.
pub fn fixed_of<P: Part>(part: &P) -> ArrayVec<FuseBit, 16>
    ensures { result.items ≡ (P.table part.now).fixed }
{
    let mut bits = ArrayVec::new();
    for index in 0..16 {
        let Some(bit) = part.fixed(index) else {
            return bits;
        };
        bits.push(bit);
    }
    bits
}
