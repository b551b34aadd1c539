//! A device with its fuses as a logic.

ghost use Rattle.std.specs.Prelude.{◌≡◌, ◌<◌};
ghost use Rattle.device_logic.specs.Prelude.{levels_of, row_value};
ghost use Rattle.device_logic.specs.RowMasks.{AreMasks, IsMask};
ghost use Rattle.device_logic.specs.CellReads.{IsCellOrder};

use crate::array::FuseArray;
use crate::lookups::cell_of;
use crate::row_mask::RowMask;
use arrayvec::ArrayVec;
use pld_base::Point;
use pld_device::{Device, Loaded};
use pld_machine::{Logic, Slot};
use std::marker::Model;

/// A device with its fuses, as a logic; contracts see its fuses and the order of its cells.
///
/// Its look-ups take no memory. A row costs a test or two of its mask, which was made of its fuses once.
#[derive(Drop)]
pub struct DeviceLogic<'a, D: Device> {
    array: FuseArray<'a, D>,
    masks: Vec<RowMask>,
    order: ArrayVec<u8, 256>,
}

impl<'a, D: Device> Model for DeviceLogic<'a, D> {
    ghost use Rattle.device_logic.specs.DeviceLookups.{OrderedFuses};
    ghost use Rattle.device_logic.specs.Masked.{IsMaskedInOrder};

    ghost Value = { OrderedFuses };

    ghost view = { λ l. record { fuses = l.array; order = l.order.items } };

    ghost invariant = { λ l. IsMaskedInOrder D.table l.array l.masks.items l.order.items };
}

impl<'a, D: Device> DeviceLogic<'a, D> {
    /// The logic of an array with the masks of its rows, its cells in this order.
    pub(crate) fn new(
        array: FuseArray<'a, D>,
        masks: Vec<RowMask>,
        order: ArrayVec<u8, 256>,
    ) -> DeviceLogic<'a, D>
        requires masks { AreMasks D.table array masks.items }
        requires order { IsCellOrder D.table array order.items }
        ensures fuses { result.fuses ≡ array.entry }
        ensures order { result.order ≡ order.items }
    {
        DeviceLogic {
            array,
            masks,
            order,
        }
    }

    /// The array with the fuses.
    pub fn array(&self) -> &FuseArray<'a, D>
        ensures { result.now ≡ self.now.fuses }
    {
        &self.array
    }

    /// The device.
    pub fn device(&self) -> &'a Loaded<D> {
        self.array.device()
    }

    /// The mask of a row.
    pub fn mask(&self, row: u16) -> RowMask
        requires { row < D.table.rows }
        ensures { IsMask D.table self.now.fuses row result }
    {
        self.masks[usize::from(row)]
    }

    /// Whether the row of this place is true at a point.
    pub(crate) fn holds_at(&self, at: &Point, row: usize) -> bool
        requires { row < D.table.rows }
        ensures { result ≡ row_value D.table self.now.fuses (levels_of at.now) row }
    {
        self.masks[row].holds(at)
    }

    /// Whether the row is true at a point.
    pub(crate) fn row_value(&self, at: &Point, row: u16) -> bool
        requires { row < D.table.rows }
        ensures { result ≡ row_value D.table self.now.fuses (levels_of at.now) row }
    {
        self.holds_at(at, usize::from(row))
    }
}

impl<'a, D: Device> Logic for DeviceLogic<'a, D> {
    ghost use Rattle.device_logic.specs.DeviceLookups.{device_lookups};

    ghost meaning = { λ l. device_lookups D.table l.fuses l.order };

    fn cells(&self) -> u8 {
        self.device().cells()
    }

    fn pin(&self, cell: u8) -> u8 {
        cell_of::<D>(self.device(), cell).pin
    }

    fn stores(&self, cell: u8) -> bool {
        self.array.stores(cell)
    }

    fn clock(&self) -> u8 {
        self.device().clock()
    }

    fn slots(&self) -> u16 {
        self.order.len() as u16
    }

    fn slot(&self, index: u16) -> Slot {
        Slot::Cell(self.order.as_slice()[usize::from(index)])
    }

    fn enable(&self, at: &Point, cell: u8) -> bool {
        self.is_enabled(at, cell)
    }

    fn level(&self, at: &Point, cell: u8) -> bool {
        self.pin_level(at, cell)
    }

    fn node(&self, _at: &Point, _node: u8) -> bool {
        false
    }

    fn reset(&self, at: &Point, _cell: u8) -> bool {
        self.row_if_any(at, self.device().reset())
    }

    fn preset(&self, at: &Point, _cell: u8) -> bool {
        self.row_if_any(at, self.device().preset())
    }

    fn next(&self, at: &Point, cell: u8) -> bool {
        self.next_q(at, cell)
    }
}
