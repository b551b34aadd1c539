//! The GAL16V8 and the GAL20V8 in simple mode: cells that always drive their pins, or never.

use crate::control::{mode_fuse, switch, xor};
use crate::v8::V8Chip;
use crate::v8_cells::simple_cell;
use pld_device::{Carry, Cell, Chip, FuseBit, Part};

/// The chip in this mode, with the cells that drive.
#[derive(Clone, Copy, PartialEq, Eq)]
pub struct V8Simple {
    pub chip: V8Chip,
    pub driven: [bool; 8],
}

impl Part for V8Simple {
    ghost use Rattle.devices.specs.V8Chips.{chip_sound, v8_of};
    ghost use Rattle.devices.specs.V8Tables.{Simple, v8_in};

    ghost table = { λ p. v8_in (v8_of p.chip) (Simple p.driven) };

    ghost sound = { λ p. chip_sound p.chip (Simple p.driven) };

    fn chip(&self) -> Chip {
        self.chip.numbers(0)
    }

    fn carries(&self, pair: u16) -> Carry {
        self.chip.simple_pair(pair)
    }

    fn cell(&self, index: u8) -> Cell {
        let (pin, row) = (self.chip.pin_of(index), u16::from(index) * 8);
        simple_cell(pin, row, self.driven[usize::from(index)])
    }

    fn inverted_at(&self, cell: u8) -> Option<FuseBit> {
        xor(self.chip.control(), cell)
    }

    fn registered_at(&self, cell: u8) -> Option<FuseBit> {
        None
    }

    fn row_switch(&self, row: u16) -> Option<u16> {
        switch(self.chip.control(), row)
    }

    /// AC1 of each cell, from the top pin on, then SYN and AC0.
    fn fixed(&self, index: u16) -> Option<FuseBit> {
        mode_fuse(self.chip.control(), true, false, &self.driven, index)
    }
}
