//! Loading fuses into a device.

ghost use Rattle.std.specs.Prelude.{◌≡◌, ◌<◌, length, All, IfOk, IfErr};
ghost use Rattle.device_logic.specs.Prelude.{device_logic, logic_of, IsDetermined, HasNoLoop};
ghost use Rattle.pld_machine.specs.Order.{IsOrdered};
ghost use Rattle.device_logic.specs.CellReads.{cell_reads};
ghost use Rattle.device_logic.specs.DeviceLookups.{device_lookups};
ghost use Rattle.device_logic.specs.LoadFaults.{IsLoadFault, pins_of};
ghost use Rattle.device_logic.specs.ResetPaths.{HasNoResetPath};

use crate::array::FuseArray;
use crate::fault::SimFault;
use crate::graphs::{cell_order, reset_path};
use crate::logic::DeviceLogic;
use crate::lookups::cell_of;
use crate::masking::row_masks;
use pld_base::OutOfMemory;
use pld_device::{Device, Fuses, Loaded};
use std::alloc::Global;

/// The pins of a list of cells.
fn pins_of<D: Device>(
    alloc: Global,
    device: &Loaded<D>,
    cells: &[u8],
) -> Result<Vec<u8>, OutOfMemory>
    requires { All (λ c. c < length D.table.cells) cells.now }
    ensures { IfOk result (λ pins. pins.items ≡ pins_of D.table cells.now) }
{
    let mut pins = Vec::new(alloc);
    for cell in cells {
        pins.push(cell_of::<D>(device, *cell).pin)?;
    }
    Ok(pins)
}

/// The device with these fuses, its cells in an order in which each reads earlier ones alone.
///
/// Answers `DeviceLoop` if the cells have none, and else `DeviceResetReadsRegister` if the reset
/// depends on a register; never `UnsupportedCondition`. Takes memory for the fuses, and a flag and a
/// mask for each row, or for the pins of a fault.
pub fn load<'a, D: Device>(
    alloc: Global,
    device: &'a Loaded<D>,
    fuses: &Fuses,
) -> Result<DeviceLogic<'a, D>, SimFault>
    requires { length fuses.now ≡ D.table.fuses }
    ensures fuses { IfOk result (λ l. l.fuses ≡ fuses.now) }
    ensures logic { IfOk result (λ l.
        logic_of (device_lookups D.table l.fuses l.order) ≡ device_logic D.table fuses.now) }
    ensures ordered { IfOk result (λ l. IsOrdered (device_lookups D.table l.fuses l.order)) }
    ensures no_loop { IfOk result (λ _.
        HasNoLoop (length D.table.cells) (cell_reads D.table fuses.now)) }
    ensures no_path { IfOk result (λ _. HasNoResetPath D.table fuses.now) }
    ensures determined { IfOk result (λ _. IsDetermined (device_logic D.table fuses.now)) }
    ensures refused { IfErr result (IsLoadFault D.table fuses.now) }
{
    let array = FuseArray::<D>::new(alloc, device, fuses)?;
    match cell_order(&array) {
        Err(found) => {
            let pins = pins_of::<D>(alloc, device, found.vertices.as_slice())?;
            Err(SimFault::DeviceLoop(pins))
        }
        Ok(order) => match reset_path(&array) {
            Some(path) => {
                let pins = pins_of::<D>(alloc, device, path.as_slice())?;
                Err(SimFault::DeviceResetReadsRegister(pins))
            }
            None => {
                let masks = row_masks::<D>(alloc, device, fuses)?;
                Ok(DeviceLogic::new(array, masks, order))
            }
        },
    }
}
