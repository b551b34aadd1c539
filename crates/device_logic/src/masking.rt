//! The masks of a device's rows, each gathered pair by pair.

ghost use Rattle.std.specs.Prelude.{◌≡◌, ◌<◌, ◌||◌, IfOk, IsTrue, length};
ghost use Rattle.device_logic.specs.Prelude.{is_on, same_level, carried, pair_values, row_fuses};
ghost use Rattle.pld_device.specs.declared.carry.Carry.TheVariants as carry;
ghost use Rattle.device_logic.specs.Array.{CarryInRange, is_live, passes};
ghost use Rattle.device_logic.specs.RowMasks.{AreMasks, HoldsWith, IsMask};

use crate::array::FuseArray;
use crate::lookups::{carry_of, cell_of};
use crate::row_mask::RowMask;
use pld_base::OutOfMemory;
use pld_device::{Carry, Device, Fuses, Loaded};
use std::alloc::Global;

/// The mask that asks what a cell feeds back besides.
fn with_cell<D: Device>(mask: RowMask, array: &FuseArray<'_, D>, cell: u8, level: bool) -> RowMask
    requires { cell < length D.table.cells }
    ensures { HoldsWith mask result
        (λ at. same_level level (carried D.table array.now at (carry.Cell cell))) }
{
    if array.stores(cell) {
        mask.with_q(cell, !level)
    } else {
        mask.with_pin(cell_of::<D>(array.device(), cell).pin, level)
    }
}

/// The mask that asks what a pair carries besides.
fn with_carry<D: Device>(
    mask: RowMask,
    array: &FuseArray<'_, D>,
    carry: Carry,
    level: bool,
) -> RowMask
    requires { CarryInRange D.table carry }
    ensures { HoldsWith mask result (λ at. same_level level (carried D.table array.now at carry)) }
{
    match carry {
        Carry::Pin(pin) => mask.with_pin(pin, level),
        Carry::Cell(cell) => with_cell(mask, array, cell, level),
    }
}

/// The mask that asks for 1 in a column besides, if it is connected. The lower one of a pair carries
/// what the pair does, the higher one its complement.
fn with_column<D: Device>(
    mask: RowMask,
    array: &FuseArray<'_, D>,
    carry: Carry,
    level: bool,
    opened: bool,
) -> RowMask
    requires { CarryInRange D.table carry }
    ensures { HoldsWith mask result
        (λ at. opened || same_level level (carried D.table array.now at carry)) }
{
    if opened {
        mask
    } else {
        with_carry(mask, array, carry, level)
    }
}

/// The fuse of a row and a column: an intact one, 0, connects the column.
pub(crate) fn fuse_at<D: Device>(device: &Loaded<D>, fuses: &[bool], row: u16, column: u16) -> bool
    requires size { length fuses.now ≡ D.table.fuses }
    requires row { row < D.table.rows }
    requires column { column < D.table.columns }
    ensures { result ≡ is_on (row_fuses D.table fuses.now row) column }
{
    fuses[usize::from(device.columns()) * usize::from(row) + usize::from(column)]
}

/// The mask that asks for 1 in the connected columns of a pair besides.
fn with_pair<D: Device>(
    mask: RowMask,
    array: &FuseArray<'_, D>,
    fuses: &[bool],
    row: u16,
    pair: u16,
) -> RowMask
    requires size { length fuses.now ≡ D.table.fuses }
    requires same { array.now ≡ fuses.now }
    requires row { row < D.table.rows }
    requires pair { pair < length D.table.pairs }
    ensures { HoldsWith mask result
        (λ at. passes (row_fuses D.table fuses.now row) (pair_values D.table fuses.now at) pair) }
{
    let carry = carry_of::<D>(array.device(), pair);
    let lower = fuse_at::<D>(array.device(), fuses, row, 2 * pair);
    let higher = fuse_at::<D>(array.device(), fuses, row, 2 * pair + 1);
    let with_lower = with_column(mask, array, carry, true, lower);
    with_column(with_lower, array, carry, false, higher)
}

/// The mask of a row that can be true.
fn live_mask<D: Device>(array: &FuseArray<'_, D>, fuses: &[bool], row: u16) -> RowMask
    requires size { length fuses.now ≡ D.table.fuses }
    requires same { array.now ≡ fuses.now }
    requires row { row < D.table.rows }
    requires live { IsTrue (is_live D.table fuses.now row) }
    ensures { IsMask D.table fuses.now row result }
{
    let mut mask = RowMask::full();
    for pair in 0..array.device().columns() / 2 {
        mask = with_pair(mask, array, fuses, row, pair);
    }
    mask
}

/// The mask of a row.
fn mask_of<D: Device>(array: &FuseArray<'_, D>, fuses: &[bool], row: u16) -> RowMask
    requires size { length fuses.now ≡ D.table.fuses }
    requires same { array.now ≡ fuses.now }
    requires row { row < D.table.rows }
    ensures { IsMask D.table fuses.now row result }
{
    if array.is_live(row) {
        live_mask(array, fuses, row)
    } else {
        RowMask::never()
    }
}

/// A mask for each row of the device with these fuses, which holds if the row is true.
pub fn row_masks<D: Device>(
    alloc: Global,
    device: &Loaded<D>,
    fuses: &Fuses,
) -> Result<Vec<RowMask>, OutOfMemory>
    requires { length fuses.now ≡ D.table.fuses }
    ensures { IfOk result (λ masks. AreMasks D.table fuses.now masks.items) }
{
    let array = FuseArray::<D>::new(alloc, device, fuses)?;
    let mut masks = Vec::new(alloc);
    for row in 0..device.rows() {
        masks.push(mask_of(&array, fuses.levels(), row))?;
    }
    Ok(masks)
}
