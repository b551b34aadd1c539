//! A chip: a device with fuses, and what it does while vectors run.

ghost use Rattle.std.specs.Prelude.{◌≡◌, length};

use crate::test::Drive;
use device_logic::{DeviceLogic, RowMask, SimFault, load};
use pld_base::{OutOfMemory, Point, Trace};
use pld_device::{Device, Fuses, Loaded};
use pld_machine::{Logic, rest, step, trace};
use std::alloc::Global;
use std::marker::Model;

/// A device with fuses that has neither a loop nor a reset path.
#[derive(Drop)]
pub struct Chip<'a, D: Device> {
    logic: DeviceLogic<'a, D>,
}

impl<'a, D: Device> Model for Chip<'a, D> {
    ghost use Rattle.device_logic.specs.DeviceLookups.{OrderedFuses, device_lookups};
    ghost use Rattle.pld_machine.specs.Order.{IsOrdered};

    ghost Value = { OrderedFuses };

    ghost view = { λ c. c.logic };

    ghost invariant = { λ c. IsOrdered (device_lookups D.table c.logic.fuses c.logic.order) };
}

/// The points that a run of one vector goes through.
#[derive(Clone, Copy)]
pub struct Passage {
    /// At rest for the vector's levels, before its clocks are turned.
    pub first: Point,
    /// While its clocks are turned.
    pub turned: Point,
    /// At the end.
    pub last: Point,
    /// Whether these are all points at which a row counts: nothing but the clock turns, and not at once.
    pub is_whole: bool,
}

impl<'a, D: Device> Chip<'a, D> {
    /// The chip with these fuses. None if it has a loop or a reset path.
    pub fn load(
        alloc: Global,
        device: &'a Loaded<D>,
        fuses: &Fuses,
    ) -> Result<Option<Chip<'a, D>>, OutOfMemory>
        requires { length fuses.now ≡ D.table.fuses }
    {
        match load::<D>(alloc, device, fuses) {
            Ok(logic) => Ok(Some(Chip { logic })),
            Err(SimFault::OutOfMemory) => Err(OutOfMemory),
            Err(_fault) => Ok(None),
        }
    }

    /// The device.
    pub fn device(&self) -> &'a Loaded<D> {
        self.logic.device()
    }

    /// What a row asks; of a row that isn't there, what nothing has.
    pub fn mask(&self, row: u16) -> RowMask {
        if row < self.device().rows() {
            self.logic.mask(row)
        } else {
            RowMask::never()
        }
    }

    /// Whether a cell is a register.
    pub fn stores(&self, cell: u8) -> bool {
        cell < self.device().cells() && self.logic.array().stores(cell)
    }

    /// Whether each cell is of the same kind and polarity as that of the other chip.
    pub fn has_same_kinds(&self, other: &Chip<'a, D>) -> bool {
        for cell in 0..self.device().cells() {
            if self.logic.array().stores(cell) != other.logic.array().stores(cell)
                || self.logic.array().is_inverted(cell) != other.logic.array().is_inverted(cell)
            {
                return false;
            }
        }
        true
    }

    /// The first row that asks something else than that of the other chip.
    pub fn other_row(&self, other: &Chip<'a, D>) -> Option<u16> {
        for row in 0..self.device().rows() {
            if self.logic.mask(row) != other.logic.mask(row) {
                return Some(row);
            }
        }
        None
    }

    /// The point at rest for these outside levels and Qs.
    pub fn rest(&self, outside: u32, q: u32) -> Point {
        rest(&self.logic, outside, q)
    }

    /// The point after a step to these outside levels.
    pub fn after(&self, before: &Point, outside: u32) -> Point {
        step(&self.logic, before, outside)
    }

    /// What a point shows.
    pub fn shown(&self, at: &Point) -> Trace {
        trace(&self.logic, at)
    }

    /// The point at which a vector is tested.
    pub fn run(&self, before: &Point, drive: Drive) -> Point {
        let first = self.after(before, drive.outside);
        if drive.outside == drive.turned {
            return first;
        }
        let turned = self.after(&first, drive.turned);
        self.after(&turned, drive.outside)
    }

    /// The same with the points on the way; `clock` is the bit of the clock's pin.
    pub fn passage(&self, before: &Point, drive: Drive, clock: u32) -> Passage {
        let is_whole = (before.pins ^ drive.outside) & clock == 0
            && (drive.outside ^ drive.turned) & !clock == 0;
        let first = self.after(before, drive.outside);
        if drive.outside == drive.turned {
            return Passage {
                first,
                turned: first,
                last: first,
                is_whole,
            };
        }
        let turned = self.after(&first, drive.turned);
        let last = self.after(&turned, drive.outside);
        Passage {
            first,
            turned,
            last,
            is_whole,
        }
    }
}
