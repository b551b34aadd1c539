//! The GAL16V8 and the GAL20V8 in registered mode: cells that are registers, or combinational.

use crate::control::{mode_fuse, switch, xor};
use crate::v8::V8Chip;
use crate::v8_cells::eight_rows;
use pld_device::{Carry, Cell, Chip, FuseBit, Part};

/// The chip in this mode, with the cells that are registers.
#[derive(Clone, Copy, PartialEq, Eq)]
pub struct V8Registered {
    pub chip: V8Chip,
    pub stores: [bool; 8],
}

impl Part for V8Registered {
    ghost use Rattle.devices.specs.V8Chips.{chip_sound, v8_of};
    ghost use Rattle.devices.specs.V8Tables.{Registers, v8_in};

    ghost table = { λ p. v8_in (v8_of p.chip) (Registers p.stores) };

    ghost sound = { λ p. chip_sound p.chip (Registers p.stores) };

    fn chip(&self) -> Chip {
        self.chip.numbers(1)
    }

    fn carries(&self, pair: u16) -> Carry {
        self.chip.registered_pair(pair)
    }

    fn cell(&self, index: u8) -> Cell {
        let (pin, row) = (self.chip.pin_of(index), u16::from(index) * 8);
        eight_rows(
            self.chip.enabling(),
            pin,
            row,
            self.stores[usize::from(index)],
        )
    }

    fn inverted_at(&self, cell: u8) -> Option<FuseBit> {
        xor(self.chip.control(), cell)
    }

    fn registered_at(&self, cell: u8) -> Option<FuseBit> {
        None
    }

    fn row_switch(&self, row: u16) -> Option<u16> {
        switch(self.chip.control(), row)
    }

    /// AC1 of each cell, from the top pin on, then SYN and AC0.
    fn fixed(&self, index: u16) -> Option<FuseBit> {
        mode_fuse(self.chip.control(), false, true, &self.stores, index)
    }
}
