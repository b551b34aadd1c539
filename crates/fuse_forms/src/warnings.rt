//! Signs that fuses are no dump of a design.

ghost use Rattle.std.specs.Prelude.{◌≡◌, ◌<◌, ◌+◌, ◌*◌, ◌/◌, ◌||◌};
ghost use Rattle.fuse_forms.specs.Warnings.{are_alike, array_of, is_row_possible, is_some_row_possible};
ghost use Rattle.fuse_forms.specs.Prelude.{is_on};

use pld_device::{Device, Loaded};

/// The levels of the array. Takes no memory.
pub fn array_of<'a, D: Device>(device: &Loaded<D>, levels: &'a [bool]) -> &'a [bool]
    ensures { result.now ≡ array_of D.table levels.now }
{
    let size = usize::from(device.columns()) * usize::from(device.rows());
    levels.split_at(size.min(levels.len())).0
}

/// Whether all levels are this one. Takes no memory.
pub fn are_alike(levels: &[bool], level: bool) -> bool
    ensures { result ≡ are_alike levels.now level }
{
    levels.iter().all(|other| *other == level)
}

/// Whether a fuse is opened. Takes no memory.
fn is_opened(levels: &[bool], fuse: usize) -> bool
    ensures { result ≡ is_on levels.now fuse }
{
    *levels.get(fuse).unwrap_or(&false)
}

/// Whether the two columns of a pair aren't both connected. Takes no memory.
fn is_open(levels: &[bool], column: usize) -> bool
    requires { column < 4294967296 + 131072 }
    ensures { result ≡ (is_on levels.now column || is_on levels.now (column + 1)) }
{
    is_opened(levels, column) || is_opened(levels, column + 1)
}

/// The number of the first fuse of a row. Takes no memory.
fn first_of<D: Device>(device: &Loaded<D>, row: u16) -> usize
    ensures first { result ≡ D.table.columns * row }
    ensures small { result < 4294967296 }
{
    usize::from(device.columns()) * usize::from(row)
}

/// The number of pairs of columns. Takes no memory.
fn pairs<D: Device>(device: &Loaded<D>) -> u16
    ensures { result ≡ D.table.columns / 2 }
{
    device.columns() / 2
}

/// Whether a row can be true: no pair has both of its columns connected. Takes no memory.
fn is_row_possible<D: Device>(device: &Loaded<D>, levels: &[bool], row: u16) -> bool
    ensures { result ≡ is_row_possible D.table levels.now row }
{
    let first = first_of::<D>(device, row);
    for pair in 0..pairs::<D>(device) {
        if !is_open(levels, first + 2 * usize::from(pair)) {
            return false;
        }
    }
    true
}

/// Whether some row can be true. Takes no memory.
pub fn is_row_in_use<D: Device>(device: &Loaded<D>, levels: &[bool]) -> bool
    ensures { result ≡ is_some_row_possible D.table levels.now }
{
    for row in 0..device.rows() {
        if is_row_possible::<D>(device, levels, row) {
            return true;
        }
    }
    false
}
