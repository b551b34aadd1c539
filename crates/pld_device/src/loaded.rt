//! A device at run time: its numbers and its look-ups.

ghost use Rattle.std.specs.Prelude.{◌≡◌, ◌<◌, Some, length, slice_get};
ghost use Rattle.pld_device.specs.Table.{chip_of, inverted_at, inverted_by_cell, registered_at, registered_by_cell};

use crate::carry::Carry;
use crate::cell::Cell;
use crate::chip::Chip;
use crate::device::Device;
use crate::flip::Flip;
use crate::fuse_bit::FuseBit;
use crate::loading::{cells_of, fixed_of, inverted_of, pairs_of, registered_of, switches_of};
use crate::part::Part;
use arrayvec::ArrayVec;
use pld_base::DeviceName;
use std::marker::PhantomData;

/// The device of the table that `D` stands for. No call of it takes memory.
#[derive(Drop)]
pub struct Loaded<D: Device> {
    chip: Chip,
    cells: ArrayVec<Cell, 10>,
    pairs: ArrayVec<Carry, 22>,
    inverted: ArrayVec<Option<FuseBit>, 10>,
    registered: ArrayVec<Option<FuseBit>, 10>,
    switches: ArrayVec<u16, 64>,
    fixed: ArrayVec<FuseBit, 16>,
    of: PhantomData<D>,
    ghost chip_is: { chip ≡ chip_of D.table },
    ghost cells_are: { cells.items ≡ D.table.cells },
    ghost pairs_are: { pairs.items ≡ D.table.pairs },
    ghost inverted_are: { inverted.items ≡ inverted_by_cell D.table },
    ghost registered_are: { registered.items ≡ registered_by_cell D.table },
    ghost switches_are: { switches.items ≡ D.table.row_switches },
    ghost fixed_are: { fixed.items ≡ D.table.fixed },
}

/// The device of this table, from what its crate writes of it. Takes no memory.
pub fn load<D: Device, P: Part>(part: &P) -> Loaded<D>
    requires { P.table part.now ≡ D.table }
{
    Loaded {
        chip: part.chip(),
        cells: cells_of::<P>(part),
        pairs: pairs_of::<P>(part),
        inverted: inverted_of::<P>(part),
        registered: registered_of::<P>(part),
        switches: switches_of::<P>(part),
        fixed: fixed_of::<P>(part),
        of: PhantomData,
    }
}

impl<D: Device> Loaded<D> {
    /// The device's name.
    pub fn name(&self) -> DeviceName
        ensures { result ≡ D.table.name }
    {
        self.chip.name
    }

    /// The number of pins; the last one is the supply.
    pub fn pins(&self) -> u8
        ensures { result ≡ D.table.pins }
    {
        self.chip.pins
    }

    /// The ground pin.
    pub fn ground(&self) -> u8
        ensures { result ≡ D.table.ground_pin }
    {
        self.chip.ground_pin
    }

    /// The number of fuses.
    pub fn fuses(&self) -> u16
        ensures { result ≡ D.table.fuses }
    {
        self.chip.fuses
    }

    /// The smaller number of fuses that a fuse file may name, else `fuses`.
    pub fn short(&self) -> u16
        ensures { result ≡ D.table.short }
    {
        self.chip.short
    }

    /// The columns of a row, two a pair. The fuse of a row and a column is `columns * row + column`.
    pub fn columns(&self) -> u16
        ensures { result ≡ D.table.columns }
    {
        self.chip.columns
    }

    /// The rows of the array.
    pub fn rows(&self) -> u16
        ensures { result ≡ D.table.rows }
    {
        self.chip.rows
    }

    /// The number of cells.
    pub fn cells(&self) -> u8
        ensures { result ≡ length D.table.cells }
    {
        self.chip.cells
    }

    /// The clock's pin, 0 if there isn't one.
    pub fn clock(&self) -> u8
        ensures { result ≡ D.table.clock }
    {
        self.chip.clock
    }

    /// The row that resets every register.
    pub fn reset(&self) -> Option<u16>
        ensures { result ≡ D.table.reset }
    {
        self.chip.reset
    }

    /// The row that presets every register.
    pub fn preset(&self) -> Option<u16>
        ensures { result ≡ D.table.preset }
    {
        self.chip.preset
    }

    /// If the device complements.
    pub fn flip(&self) -> Flip
        ensures { result ≡ D.table.flip }
    {
        self.chip.flip
    }

    /// The pin that may power the chip down, which no source may read; 0 if there isn't one.
    pub fn power_down(&self) -> u8
        ensures { result ≡ D.table.power_down }
    {
        self.chip.power_down
    }

    /// What a pair of columns carries, pairs from 0.
    pub fn carries(&self, pair: u16) -> Carry
        requires { pair < length D.table.pairs }
        ensures { slice_get D.table.pairs pair ≡ Some result }
    {
        self.pairs.as_slice()[usize::from(pair)]
    }

    /// The cell of a number, from 0.
    pub fn cell(&self, index: u8) -> Cell
        requires { index < length D.table.cells }
        ensures { slice_get D.table.cells index ≡ Some result }
    {
        self.cells.as_slice()[usize::from(index)]
    }

    /// The fuse that says that the cell is inverted, and its level then.
    pub fn inverted_at(&self, cell: u8) -> Option<FuseBit>
        requires { cell < length D.table.cells }
        ensures { result ≡ inverted_at D.table cell }
    {
        self.inverted.as_slice()[usize::from(cell)]
    }

    /// The fuse that says that the cell is registered, and its level then.
    pub fn registered_at(&self, cell: u8) -> Option<FuseBit>
        requires { cell < length D.table.cells }
        ensures { result ≡ registered_at D.table cell }
    {
        self.registered.as_slice()[usize::from(cell)]
    }

    /// The fuse that switches the row on.
    pub fn row_switch(&self, row: u16) -> Option<u16>
        ensures { result ≡ slice_get D.table.row_switches row }
    {
        self.switches.as_slice().get(usize::from(row)).copied()
    }

    /// A fuse whose level is the same in every design, from 0.
    pub fn fixed(&self, index: u16) -> Option<FuseBit>
        ensures { result ≡ slice_get D.table.fixed index }
    {
        self.fixed.as_slice().get(usize::from(index)).copied()
    }
}
