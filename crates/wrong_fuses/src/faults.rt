//! Which fuses can be wrong.

ghost use Rattle.std.specs.Prelude.{◌≡◌, ◌<◌, ◌||◌, length, slice_get};
ghost use Rattle.wrong_fuses.specs.Prelude.{inverted_at, registered_at};
ghost use Rattle.wrong_fuses.specs.Faults.{is_fault, is_fixed, is_of_cell, is_switch, names, switches_by};

use pld_device::{Device, FuseBit, Loaded};

/// How many fuses have a fixed level at most.
const FIXED: u16 = 16;

/// Whether the entry names the fuse.
fn names(fuse: u16, entry: Option<FuseBit>) -> bool
    ensures { result ≡ names fuse entry }
{
    match entry {
        None => false,
        Some(bit) => bit.fuse == fuse,
    }
}

/// Whether the fuse says the polarity or the kind of this cell.
fn is_of<D: Device>(device: &Loaded<D>, fuse: u16, cell: u8) -> bool
    requires { cell < length D.table.cells }
    ensures { result ≡ (names fuse (inverted_at D.table cell) || names fuse (registered_at D.table cell)) }
{
    names(fuse, device.inverted_at(cell)) || names(fuse, device.registered_at(cell))
}

/// Whether the fuse says the polarity or the kind of a cell.
fn is_of_cell<D: Device>(device: &Loaded<D>, fuse: u16) -> bool
    ensures { result ≡ is_of_cell D.table fuse }
{
    for cell in 0..device.cells() {
        if is_of::<D>(device, fuse, cell) {
            return true;
        }
    }
    false
}

/// Whether the fuse switches this row.
fn switches<D: Device>(device: &Loaded<D>, fuse: u16, row: u16) -> bool
    ensures { result ≡ switches_by fuse (slice_get D.table.row_switches row) }
{
    match device.row_switch(row) {
        None => false,
        Some(switch) => switch == fuse,
    }
}

/// Whether the fuse switches a row.
fn is_switch<D: Device>(device: &Loaded<D>, fuse: u16) -> bool
    ensures { result ≡ is_switch D.table fuse }
{
    for row in 0..device.rows() {
        if switches::<D>(device, fuse, row) {
            return true;
        }
    }
    false
}

/// Whether the level of the fuse is the same in every design.
fn is_fixed<D: Device>(device: &Loaded<D>, fuse: u16) -> bool
    ensures { result ≡ is_fixed D.table fuse }
{
    for index in 0..FIXED {
        if names(fuse, device.fixed(index)) {
            return true;
        }
    }
    false
}

/// Whether the fuse can be wrong: it is one of the array or a control fuse, and not one of a signature.
pub fn is_fault<D: Device>(device: &Loaded<D>, fuse: u16) -> bool
    ensures { result ≡ is_fault D.table fuse }
{
    fuse < device.columns() * device.rows()
        || is_of_cell::<D>(device, fuse)
        || is_switch::<D>(device, fuse)
        || is_fixed::<D>(device, fuse)
}
