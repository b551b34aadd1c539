//! What a pair of columns carries.

ghost use Rattle.std.specs.Prelude.{◌≡◌};
ghost use Rattle.pld_device.specs.Pins.{carries_cell};

/// A pin with its level, or a cell with its feedback.
///
/// Of a pair the lower column carries the value, the higher one its complement. Pins count from 1,
/// cells from 0.
#[derive(Clone, Copy, PartialEq, Eq)]
pub enum Carry {
    Pin(u8),
    Cell(u8),
}

impl Carry {
    /// Whether it is the cell of this number. Takes no memory.
    pub fn is_cell(self, cell: u8) -> bool
        ensures { result ≡ carries_cell cell self }
    {
        match self {
            Carry::Pin(_) => false,
            Carry::Cell(other) => other == cell,
        }
    }
}

/// What is at the places of a list that are not used yet.
impl Default for Carry {
    fn default() -> Carry {
        Carry::Pin(0)
    }
}
