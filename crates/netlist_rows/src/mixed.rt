//! A small device of no maker that mixes what devices have: rows with and without switches, fixed fuses of both levels.

use pld_base::DeviceName;
use pld_device::{Carry, Cell, Chip, Device, Enable, Flip, FuseBit, Kinds, Loaded, Part, load};

/// The small device. It complements before its registers, has switches for its first rows alone, and fixed fuses of both
/// levels.
#[derive(Clone, Copy, PartialEq, Eq)]
pub(crate) struct Mixed;

impl Device for Mixed {
    ghost use Rattle.netlist_rows.specs.MixedTable.{mixed, mixed_sound};

    ghost table = { mixed };

    ghost sound = { mixed_sound };
}

impl Part for Mixed {
    ghost use Rattle.netlist_rows.specs.MixedTable.{mixed, mixed_sound};

    ghost table = { λ p. mixed };

    ghost sound = { λ p. mixed_sound };

    fn chip(&self) -> Chip {
        Chip {
            name: DeviceName::GAL22V10,
            pins: 12,
            ground_pin: 6,
            fuses: 168,
            short: 163,
            columns: 14,
            rows: 11,
            cells: 3,
            clock: 1,
            reset: Some(0),
            preset: Some(10),
            flip: Flip::BeforeRegister,
            power_down: 0,
        }
    }

    fn carries(&self, pair: u16) -> Carry {
        match pair {
            0 => Carry::Pin(2),
            1 => Carry::Cell(1),
            2 => Carry::Pin(3),
            3 => Carry::Cell(0),
            4 => Carry::Pin(4),
            5 => Carry::Cell(2),
            _ => Carry::Pin(1),
        }
    }

    fn cell(&self, index: u8) -> Cell {
        match index {
            0 => Cell {
                pin: 11,
                enable: Enable::Row(1),
                first: 2,
                room: 2,
                kinds: Kinds::Either,
            },
            1 => Cell {
                pin: 10,
                enable: Enable::PinLow(5),
                first: 4,
                room: 3,
                kinds: Kinds::Registered,
            },
            _ => Cell {
                pin: 9,
                enable: Enable::Row(7),
                first: 8,
                room: 2,
                kinds: Kinds::Combinational,
            },
        }
    }

    fn inverted_at(&self, cell: u8) -> Option<FuseBit> {
        let (fuse, level) = match cell {
            0 => (156, true),
            1 => (154, false),
            _ => (155, true),
        };
        Some(FuseBit { fuse, level })
    }

    fn registered_at(&self, cell: u8) -> Option<FuseBit> {
        match cell {
            0 => Some(FuseBit {
                fuse: 157,
                level: false,
            }),
            _ => None,
        }
    }

    fn row_switch(&self, row: u16) -> Option<u16> {
        if row < 5 { Some(158 + row) } else { None }
    }

    fn fixed(&self, index: u16) -> Option<FuseBit> {
        match index {
            0 => Some(FuseBit {
                fuse: 163,
                level: true,
            }),
            1 => Some(FuseBit {
                fuse: 164,
                level: false,
            }),
            _ => None,
        }
    }
}

/// The device of this table.
pub(crate) fn mixed_device() -> Loaded<Mixed> {
    load::<Mixed, Mixed>(&Mixed)
}
