//! Which pins a signal prefers.

ghost use Rattle.std.specs.Prelude.{◌≡◌, ◌==◌, ◌++◌, IfOk, OnOk, is_none};
ghost use Rattle.placer.specs.Prelude.{cell_on};
ghost use Rattle.placer.specs.Signals.{cells_of_room, large_cells, plain_pins, preferred, small_cells};

use pld_base::OutOfMemory;
use pld_device::{Cell, Device, Loaded, cell_on};
use std::alloc::Global;

/// Whether the cell has so many rows.
fn is_of_room(cell: &Cell, room: u16) -> bool
    ensures { result ≡ (cell.now.room == room) }
{
    u16::from(cell.room) == room
}

/// Adds the pins of the cells of a room.
fn add_room<D: Device>(device: &Loaded<D>, list: &mut Vec<u8>, room: u16) -> Result<(), OutOfMemory>
    ensures { OnOk result (list.new.items ≡ list.old.items ++ cells_of_room D.table room) }
{
    for index in 0..device.cells() {
        let cell = device.cell(index);
        if is_of_room(&cell, room) {
            list.push(cell.pin)?;
        }
    }
    Ok(())
}

/// The pins of cells, those of larger room first.
fn large_cells<D: Device>(alloc: Global, device: &Loaded<D>) -> Result<Vec<u8>, OutOfMemory>
    ensures { IfOk result (λ v. v.items ≡ large_cells D.table) }
{
    let mut list = Vec::new(alloc);
    let mut room = device.rows();
    'rooms: while 0 < room {
        add_room::<D>(device, &mut list, room)?;
        room -= 1;
    }
    add_room::<D>(device, &mut list, 0)?;
    Ok(list)
}

/// Adds the pins of cells, those of smaller room first.
fn add_small<D: Device>(device: &Loaded<D>, list: &mut Vec<u8>) -> Result<(), OutOfMemory>
    ensures { OnOk result (list.new.items ≡ list.old.items ++ small_cells D.table) }
{
    add_room::<D>(device, list, 0)?;
    for room in 0..device.rows() {
        add_room::<D>(device, list, room + 1)?;
    }
    Ok(())
}

/// Whether no cell is on the pin.
fn is_plain<D: Device>(device: &Loaded<D>, pin: u8) -> bool
    ensures { result ≡ is_none (cell_on D.table pin) }
{
    cell_on::<D>(device, pin).is_none()
}

/// Adds the pins without a cell, in rising order.
fn add_plain<D: Device>(device: &Loaded<D>, list: &mut Vec<u8>) -> Result<(), OutOfMemory>
    ensures { OnOk result (list.new.items ≡ list.old.items ++ plain_pins D.table) }
{
    for index in 0..device.pins() {
        let pin = index + 1;
        if is_plain::<D>(device, pin) {
            list.push(pin)?;
        }
    }
    Ok(())
}

/// The pins that a signal prefers, the most preferred one first.
pub(crate) fn preferred<D: Device>(
    alloc: Global,
    device: &Loaded<D>,
    assigned: bool,
) -> Result<Vec<u8>, OutOfMemory>
    ensures { IfOk result (λ v. v.items ≡ preferred D.table assigned) }
{
    if assigned {
        return large_cells::<D>(alloc, device);
    }
    let mut list = Vec::new(alloc);
    add_plain::<D>(device, &mut list)?;
    add_small::<D>(device, &mut list)?;
    Ok(list)
}
