//! Names for the pins of a fuse file, which has none.

ghost use Rattle.std.specs.Prelude.{◌<◌, length};

use abel_tree::{Attributes, Declared, Meaning, Names};
use fuse_listing::{cell_of, count_in_use, is_in_use, name_on};
use jedec_reader::FuseFile;
use pld_base::{ListOf, NameText, OutOfMemory, Place, put_decimal};
use pld_device::{Device, Enable, Loaded};
use std::alloc::Global;

/// Whether a fuse file uses a cell: some row of it is in use.
fn is_used<D: Device>(device: &Loaded<D>, levels: &[bool], cell: u8) -> bool
    requires { cell < length D.table.cells }
{
    let found = cell_of::<D>(device, cell);
    let is_enabled = match found.enable {
        Enable::Row(row) => is_in_use::<D>(device, levels, row),
        Enable::PinLow(_) | Enable::Released => false,
        Enable::Driven => true,
    };
    is_enabled || count_in_use::<D>(device, levels, found.first, found.room) != 0
}

/// Whether a fuse file uses the cell on a pin.
fn is_assigned<D: Device>(device: &Loaded<D>, levels: &[bool], pin: u8) -> bool {
    for cell in 0..device.cells() {
        if cell_of::<D>(device, cell).pin == pin {
            return is_used::<D>(device, levels, cell);
        }
    }
    false
}

/// The name of a pin: `p` and its number, as `decompile` writes it.
fn named<D: Device>(
    alloc: Global,
    device: &Loaded<D>,
    levels: &[bool],
    pin: u8,
) -> Result<Declared, OutOfMemory> {
    let mut text = Vec::from_slice(alloc, b"p")?;
    put_decimal(alloc, &mut text, usize::from(pin))?;
    Ok(Declared {
        name: NameText::new(alloc, &text)?,
        place: Place { line: 1, column: 1 },
        meaning: Meaning::Pin {
            pin,
            negated: false,
        },
        attributes: Attributes(0),
        assigned: is_assigned::<D>(device, levels, pin),
    })
}

/// The bytes of the first name of a pin, none if it has none. Takes no memory.
pub fn name_of_pin(names: &Names, pin: u8) -> &[u8] {
    match name_on(names, pin) {
        Some(declared) => declared.name.bytes(),
        None => b"",
    }
}

/// The names of a fuse file's pins, those of cells in use assigned.
pub fn pin_names<D: Device>(
    alloc: Global,
    device: &Loaded<D>,
    file: &FuseFile,
) -> Result<Names, OutOfMemory> {
    let mut list = Vec::new(alloc);
    for before in 0..device.pins() {
        let pin = before + 1;
        if pin != device.ground() && pin != device.pins() {
            list.push(named::<D>(alloc, device, file.fuses.levels(), pin)?)?;
        }
    }
    Ok(Names {
        list: ListOf::from_vec(list),
        device: device.name(),
    })
}
