//! The fuses of a device.

use std::marker::Model;

/// The levels of a device's fuses, from fuse 0: 0 is an intact connection, 1 an opened one.
#[derive(Drop)]
pub struct Fuses {
    levels: Vec<bool>,
}

impl Model for Fuses {
    ghost use Rattle.std.specs.Prelude.{List, Bool};

    ghost Value = { List Bool };

    ghost view = { λ f. f.levels.items };
}

impl Fuses {
    ghost use Rattle.std.specs.Prelude.{◌≡◌};
    ghost use Rattle.pld_device.specs.OpenedFuses.{opened_of};

    /// The fuses with these levels. Takes no memory.
    pub fn from_levels(levels: Vec<bool>) -> Fuses
        ensures { result ≡ levels.items }
    {
        Fuses { levels }
    }

    /// The levels, in order. Takes no memory.
    pub fn levels(&self) -> &[bool]
        ensures { result.now ≡ self.now }
    {
        &self.levels
    }

    /// How many fuses are opened, which are those of level 1. Takes no memory.
    pub fn opened(&self) -> usize
        ensures { result ≡ opened_of self.now }
    {
        self.levels.iter().filter(|level| **level).count()
    }
}
