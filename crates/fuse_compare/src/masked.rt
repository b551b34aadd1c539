//! A device with its fuses as a logic whose rows are masks.

ghost use Rattle.std.specs.Prelude.{◌≡◌, ◌<◌, IfErr, IfOk, length};
ghost use Rattle.fuse_compare.specs.Prelude.{device_logic, logic_of, IsOrdered, IsDetermined, device_lookups, IsLoadFault, IsMask};
ghost use Rattle.device_logic.specs.PairCubes.{IsPairCube};
ghost use Rattle.fuse_compare.specs.Compared.{CanBeLoaded};

use covers::Cube;
use device_logic::{DeviceLogic, FuseArray, RowMask, SimFault, pair_cubes};
use pld_base::Point;
use pld_device::{Device, Fuses, Loaded};
use pld_machine::{Logic, Slot};
use std::alloc::Global;
use std::marker::Model;

/// A device with its fuses, as a logic, and what its rows ask of the column pairs; contracts see its fuses and the order of
/// its cells.
#[derive(Drop)]
pub struct MaskedLogic<'a, D: Device> {
    logic: DeviceLogic<'a, D>,
    cubes: Vec<Cube>,
}

impl<'a, D: Device> Model for MaskedLogic<'a, D> {
    ghost use Rattle.device_logic.specs.DeviceLookups.{OrderedFuses};
    ghost use Rattle.device_logic.specs.PairCubes.{ArePairCubes};

    ghost Value = { OrderedFuses };

    ghost view = { λ l. l.logic };

    ghost invariant = { λ l. ArePairCubes D.table l.logic.fuses l.cubes.items };
}

impl<'a, D: Device> MaskedLogic<'a, D> {
    /// The device with these fuses; refused as `device_logic::load` refuses them.
    pub fn load(
        alloc: Global,
        device: &'a Loaded<D>,
        fuses: &Fuses,
    ) -> Result<MaskedLogic<'a, D>, SimFault>
        requires { length fuses.now ≡ D.table.fuses }
        ensures fuses { IfOk result (λ l. l.fuses ≡ fuses.now) }
        ensures logic { IfOk result (λ l.
            logic_of (device_lookups D.table l.fuses l.order) ≡ device_logic D.table fuses.now) }
        ensures ordered { IfOk result (λ l. IsOrdered (device_lookups D.table l.fuses l.order)) }
        ensures loaded { IfOk result (λ _. CanBeLoaded D.table fuses.now) }
        ensures determined { IfOk result (λ _. IsDetermined (device_logic D.table fuses.now)) }
        ensures refused { IfErr result (IsLoadFault D.table fuses.now) }
    {
        let logic = device_logic::load::<D>(alloc, device, fuses)?;
        let cubes = pair_cubes::<D>(alloc, device, fuses)?;
        Ok(MaskedLogic { logic, cubes })
    }

    /// The device.
    pub fn device(&self) -> &'a Loaded<D> {
        self.logic.device()
    }

    /// The array with the fuses.
    pub fn array(&self) -> &FuseArray<'a, D>
        ensures { result.now ≡ self.now.fuses }
    {
        self.logic.array()
    }

    /// The mask of a row.
    pub fn mask(&self, row: u16) -> RowMask
        requires { row < D.table.rows }
        ensures { IsMask D.table self.now.fuses row result }
    {
        self.logic.mask(row)
    }

    /// The cube of a row over the column pairs.
    pub fn cube(&self, row: u16) -> Cube
        requires { row < D.table.rows }
        ensures { IsPairCube D.table self.now.fuses row result }
    {
        self.cubes[usize::from(row)]
    }
}

impl<'a, D: Device> Logic for MaskedLogic<'a, D> {
    ghost use Rattle.device_logic.specs.DeviceLookups.{device_lookups};

    ghost meaning = { λ l. device_lookups D.table l.fuses l.order };

    fn cells(&self) -> u8 {
        self.logic.cells()
    }

    fn pin(&self, cell: u8) -> u8 {
        self.logic.pin(cell)
    }

    fn stores(&self, cell: u8) -> bool {
        self.logic.stores(cell)
    }

    fn clock(&self) -> u8 {
        self.logic.clock()
    }

    fn slots(&self) -> u16 {
        self.logic.slots()
    }

    fn slot(&self, index: u16) -> Slot {
        self.logic.slot(index)
    }

    fn enable(&self, at: &Point, cell: u8) -> bool {
        self.logic.enable(at, cell)
    }

    fn level(&self, at: &Point, cell: u8) -> bool {
        self.logic.level(at, cell)
    }

    fn node(&self, at: &Point, node: u8) -> bool {
        self.logic.node(at, node)
    }

    fn reset(&self, at: &Point, cell: u8) -> bool {
        self.logic.reset(at, cell)
    }

    fn preset(&self, at: &Point, cell: u8) -> bool {
        self.logic.preset(at, cell)
    }

    fn next(&self, at: &Point, cell: u8) -> bool {
        self.logic.next(at, cell)
    }
}
