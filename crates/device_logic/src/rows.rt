//! The rows of a device's array by their fuses: which columns are connected, and which rows can be
//! true.

ghost use Rattle.std.specs.Prelude.{◌≡◌, ◌<◌, length, IfOk};
ghost use Rattle.device_logic.specs.Prelude.{is_on, has_whole_pair, is_switched_on, row_fuses};
ghost use Rattle.device_logic.specs.Array.{is_connected, is_live, is_whole, live_rows};

use pld_base::OutOfMemory;
use pld_device::{Device, Loaded};
use std::alloc::Global;

/// The fuse of a row and a column: an intact one, 0, connects the column.
pub fn fuse_at<D: Device>(device: &Loaded<D>, fuses: &[bool], row: u16, column: u16) -> bool
    requires size { length fuses.now ≡ D.table.fuses }
    requires row { row < D.table.rows }
    requires column { column < D.table.columns }
    ensures { result ≡ is_on (row_fuses D.table fuses.now row) column }
{
    fuses[usize::from(device.columns()) * usize::from(row) + usize::from(column)]
}

/// Whether the row isn't switched off.
fn is_switched_on<D: Device>(device: &Loaded<D>, fuses: &[bool], row: u16) -> bool
    requires { length fuses.now ≡ D.table.fuses }
    ensures { result ≡ is_switched_on D.table fuses.now row }
{
    match device.row_switch(row) {
        None => true,
        Some(fuse) => fuses[usize::from(fuse)],
    }
}

/// Whether one of the pair's columns is connected.
pub fn is_connected<D: Device>(device: &Loaded<D>, fuses: &[bool], row: u16, pair: u16) -> bool
    requires size { length fuses.now ≡ D.table.fuses }
    requires row { row < D.table.rows }
    requires pair { pair < length D.table.pairs }
    ensures { result ≡ is_connected (row_fuses D.table fuses.now row) pair }
{
    !fuse_at::<D>(device, fuses, row, 2 * pair) || !fuse_at::<D>(device, fuses, row, 2 * pair + 1)
}

/// Whether both columns of the pair are connected.
fn is_whole<D: Device>(device: &Loaded<D>, fuses: &[bool], row: u16, pair: u16) -> bool
    requires size { length fuses.now ≡ D.table.fuses }
    requires row { row < D.table.rows }
    requires pair { pair < length D.table.pairs }
    ensures { result ≡ is_whole (row_fuses D.table fuses.now row) pair }
{
    !fuse_at::<D>(device, fuses, row, 2 * pair) && !fuse_at::<D>(device, fuses, row, 2 * pair + 1)
}

/// Whether both columns of some pair are connected.
fn has_whole_pair<D: Device>(device: &Loaded<D>, fuses: &[bool], row: u16) -> bool
    requires size { length fuses.now ≡ D.table.fuses }
    requires row { row < D.table.rows }
    ensures { result ≡ has_whole_pair (row_fuses D.table fuses.now row) }
{
    for pair in 0..device.columns() / 2 {
        if is_whole::<D>(device, fuses, row, pair) {
            return true;
        }
    }
    false
}

/// Whether the row can be true, as far as its own fuses say.
fn is_live<D: Device>(device: &Loaded<D>, fuses: &[bool], row: u16) -> bool
    requires size { length fuses.now ≡ D.table.fuses }
    requires row { row < D.table.rows }
    ensures { result ≡ is_live D.table fuses.now row }
{
    is_switched_on::<D>(device, fuses, row) && !has_whole_pair::<D>(device, fuses, row)
}

/// For each row of the array, whether it can be true.
pub fn live_rows<D: Device>(
    alloc: Global,
    device: &Loaded<D>,
    fuses: &[bool],
) -> Result<Vec<bool>, OutOfMemory>
    requires { length fuses.now ≡ D.table.fuses }
    ensures { IfOk result (λ live. live.items ≡ live_rows D.table fuses.now) }
{
    let mut live = Vec::new(alloc);
    for row in 0..device.rows() {
        live.push(is_live::<D>(device, fuses, row))?;
    }
    Ok(live)
}
