//! What the device sees at a point of a vector.

ghost use Rattle.std.specs.Prelude.{◌<◌};

use crate::strips::Run;
use fuse_listing::{carry_at, is_opened};
use page_model::CellFacts;
use pld_device::{Carry, Device, Loaded};

/// A point of a vector at which its clocks are at rest.
#[derive(Clone, Copy)]
pub struct Seen<'a> {
    pub run: Run<'a>,
    pub index: usize,
    pub point: usize,
}

impl<'a> Seen<'a> {
    /// The level that the test or the fuse file gives a pin.
    fn outside(&self, pin: u8) -> bool {
        match self.run.char_at(self.index, pin) {
            b'0' | b'C' => false,
            b'1' | b'K' => true,
            _ => {
                let design = self.run.design;
                design.file.default_level
            }
        }
    }

    /// The level of a pin. Takes no memory.
    pub fn level(&self, pin: u8) -> bool {
        match self.run.level(self.point, pin) {
            Some(level) => level,
            None => self.outside(pin),
        }
    }

    /// What a cell feeds back: the complement of its Q, none if its pin doesn't show it; or the level of its pin.
    fn feedback(&self, cell: CellFacts) -> Option<bool> {
        if !cell.is_register {
            return Some(self.level(cell.pin));
        }
        match self.run.level(self.point, cell.pin) {
            Some(level) => Some(level == cell.is_inverted),
            None => None,
        }
    }

    /// What a pair carries, if it can be seen.
    fn carried(&self, carry: Carry) -> Option<bool> {
        let design = self.run.design;
        match carry {
            Carry::Pin(pin) => Some(self.level(pin)),
            Carry::Cell(cell) => self.feedback(design.model.cell(cell)?),
        }
    }

    /// The level of a column, if it can be seen. Takes no memory.
    pub fn column<D: Device>(&self, device: &Loaded<D>, column: u16) -> Option<bool>
        requires { column < D.table.columns }
    {
        match self.carried(carry_at::<D>(device, column)) {
            Some(value) => Some(value != (column % 2 == 1)),
            None => None,
        }
    }

    /// Whether a row that is in use is true, if it can be seen. Takes no memory.
    pub fn row<D: Device>(&self, device: &Loaded<D>, row: u16) -> Option<bool> {
        let design = self.run.design;
        let mut value = Some(true);
        for column in 0..device.columns() {
            if !is_opened::<D>(device, design.levels(), row, column) {
                match self.column::<D>(device, column) {
                    Some(true) => {}
                    Some(false) => return Some(false),
                    None => value = None,
                }
            }
        }
        value
    }
}
