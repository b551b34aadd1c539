//! A cell, as a page says of it.

ghost use Rattle.std.specs.Prelude.{◌≡◌, ◌<◌, IfSome, length};
ghost use Rattle.abel_tree.specs.Entries.{entries_of};
ghost use Rattle.page_model.specs.Cells.{cell_facts, shared_row};

use crate::drives::{Drives, drives_of};
use crate::idle::{IdleLevels, idle_levels, pin_complements};
use crate::pin_names::is_assigned;
use abel_tree::Names;
use device_logic::FuseArray;
use fuse_listing::{cell_of, count_in_use, name_on};
use pld_device::Device;

/// A cell: its pin, whether its pin's name is assigned, its kind, its polarity as `list` has it, how many of its data rows are in
/// use of those that it has, when it drives its pin, its levels if no row sets them, and the rows that reset and preset it.
#[derive(Clone, Copy)]
pub struct CellFacts {
    pub pin: u8,
    pub is_assigned: bool,
    pub is_register: bool,
    pub is_inverted: bool,
    pub used: usize,
    pub room: u8,
    pub drives: Drives,
    pub idle: Option<IdleLevels>,
    pub reset: Option<u16>,
    pub preset: Option<u16>,
}

/// The row that all registers share, for a cell that is one.
fn shared_row(is_register: bool, row: Option<u16>) -> Option<u16>
    ensures { result ≡ shared_row is_register row }
{
    if is_register { row } else { None }
}

/// A cell of a device with its fuses, whose levels are those of the array.
pub fn cell_facts<D: Device>(
    array: &FuseArray<'_, D>,
    levels: &[bool],
    names: &Names,
    cell: u8,
) -> CellFacts
    requires within { cell < length D.table.cells }
    requires levels { levels.now ≡ array.now }
    ensures { result ≡ cell_facts D.table array.now (entries_of names.now) cell }
{
    let device = array.device();
    let found = cell_of::<D>(device, cell);
    let is_register = array.stores(cell);
    CellFacts {
        pin: found.pin,
        is_assigned: is_assigned(name_on(names, found.pin)),
        is_register,
        is_inverted: pin_complements(device.flip(), is_register, array.is_inverted(cell)),
        used: count_in_use::<D>(device, levels, found.first, found.room),
        room: found.room,
        drives: drives_of(array, cell),
        idle: idle_levels(array, cell),
        reset: shared_row(is_register, device.reset()),
        preset: shared_row(is_register, device.preset()),
    }
}
