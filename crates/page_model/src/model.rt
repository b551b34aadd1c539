//! The pins and the cells of a page.

ghost use Rattle.std.specs.Prelude.{◌≡◌, IfOk, filter, length, map, slice_get};
ghost use Rattle.std.specs.List.{range_with_len};
ghost use Rattle.abel_tree.specs.Entries.{entries_of};
ghost use Rattle.fuse_listing.specs.Listing.{is_in_use};
ghost use Rattle.page_model.specs.Cells.{cell_facts};
ghost use Rattle.page_model.specs.Pins.{label_at, pin_facts};

use crate::cell_facts::{CellFacts, cell_facts};
use crate::pin_facts::{PinFacts, pin_facts};
use abel_tree::Names;
use device_logic::FuseArray;
use fuse_listing::is_in_use;
use pld_base::{DeviceName, ListOf, OutOfMemory};
use pld_device::{Device, Fuses, Loaded};
use std::alloc::Global;

/// What a page says of a device with its fuses: its name, its pins from pin 1, its cells in their order, and how many rows of
/// its array are in use.
#[derive(Drop)]
pub struct PageModel {
    pub device: DeviceName,
    pub pins: ListOf<PinFacts>,
    pub cells: ListOf<CellFacts>,
    pub rows_in_use: usize,
}

impl PageModel {
    /// The cell of a number, from 0. Takes no memory.
    pub fn cell(&self, number: u8) -> Option<CellFacts>
        ensures { result ≡ slice_get self.now.cells number }
    {
        self.cells.as_slice().get(usize::from(number)).copied()
    }

    /// The label of a pin, no text if there is no such pin. Takes no memory.
    pub fn label(&self, pin: u8) -> &[u8]
        ensures { result.now ≡ label_at self.now.pins pin }
    {
        let place = usize::from(pin).saturating_sub(1);
        match self.pins.as_slice().get(place) {
            Some(facts) => facts.label.bytes(),
            None => b"",
        }
    }
}

/// The pins, from pin 1.
fn pins_of<D: Device>(
    alloc: Global,
    array: &FuseArray<'_, D>,
    names: &Names,
) -> Result<ListOf<PinFacts>, OutOfMemory>
    ensures { IfOk result (λ pins. pins
        ≡ map (pin_facts D.table array.now (entries_of names.now)) (range_with_len 1 D.table.pins)) }
{
    let mut pins = Vec::new(alloc);
    for place in 0..array.device().pins() {
        pins.push(pin_facts(alloc, array, names, place + 1)?)?;
    }
    Ok(ListOf::from_vec(pins))
}

/// The cells, in their order.
fn cells_of<D: Device>(
    alloc: Global,
    array: &FuseArray<'_, D>,
    levels: &[bool],
    names: &Names,
) -> Result<ListOf<CellFacts>, OutOfMemory>
    requires { levels.now ≡ array.now }
    ensures { IfOk result (λ cells. cells
        ≡ map (cell_facts D.table array.now (entries_of names.now)) (range_with_len 0 (length D.table.cells))) }
{
    let mut cells = Vec::new(alloc);
    for cell in 0..array.device().cells() {
        cells.push(cell_facts(array, levels, names, cell))?;
    }
    Ok(ListOf::from_vec(cells))
}

/// How many rows of the array are in use.
fn rows_in_use<D: Device>(device: &Loaded<D>, levels: &[bool]) -> usize
    ensures { result ≡ length (filter (is_in_use D.table levels.now) (range_with_len 0 D.table.rows)) }
{
    (0..device.rows())
        .filter(|row| is_in_use::<D>(device, levels, *row))
        .count()
}

/// What a page says of a device with these fuses, whose pins have these names.
///
/// # Errors
/// Only lack of memory.
pub fn page_model_of<D: Device>(
    alloc: Global,
    device: &Loaded<D>,
    names: &Names,
    fuses: &Fuses,
) -> Result<PageModel, OutOfMemory>
    requires { length fuses.now ≡ D.table.fuses }
    ensures device { IfOk result (λ m. m.device ≡ D.table.name) }
    ensures pins { IfOk result (λ m. m.pins
        ≡ map (pin_facts D.table fuses.now (entries_of names.now)) (range_with_len 1 D.table.pins)) }
    ensures cells { IfOk result (λ m. m.cells
        ≡ map (cell_facts D.table fuses.now (entries_of names.now)) (range_with_len 0 (length D.table.cells))) }
    ensures rows { IfOk result (λ m. m.rows_in_use
        ≡ length (filter (is_in_use D.table fuses.now) (range_with_len 0 D.table.rows))) }
{
    let array = FuseArray::<D>::new(alloc, device, fuses)?;
    Ok(PageModel {
        device: device.name(),
        pins: pins_of(alloc, &array, names)?,
        cells: cells_of(alloc, &array, fuses.levels(), names)?,
        rows_in_use: rows_in_use::<D>(device, fuses.levels()),
    })
}
