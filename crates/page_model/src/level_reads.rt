//! Which pins' levels the rows of a device read.

ghost use Rattle.std.specs.Prelude.{◌≡◌, ◌<◌, length};
ghost use Rattle.device_logic.specs.Array.{CarryInRange};
ghost use Rattle.page_model.specs.LevelReads.{carries_level, is_read, reads_level, row_reads_level};

use device_logic::{FuseArray, carry_of, cell_of};
use pld_device::{Carry, Device};

/// Whether a pair carries the level of a pin.
fn carries_level<D: Device>(array: &FuseArray<'_, D>, pin: u8, carry: Carry) -> bool
    requires { CarryInRange D.table carry }
    ensures { result ≡ carries_level D.table array.now pin carry }
{
    match carry {
        Carry::Pin(other) => other == pin,
        Carry::Cell(cell) => !array.stores(cell) && cell_of::<D>(array.device(), cell).pin == pin,
    }
}

/// Whether a row reads a pair, and the pair carries the level of a pin.
fn reads_level<D: Device>(array: &FuseArray<'_, D>, pin: u8, row: u16, pair: u16) -> bool
    requires row { row < D.table.rows }
    requires pair { pair < length D.table.pairs }
    ensures { result ≡ reads_level D.table array.now pin row pair }
{
    array.row_reads(row, pair) && carries_level(array, pin, carry_of::<D>(array.device(), pair))
}

/// Whether a row reads the level of a pin.
fn row_reads_level<D: Device>(array: &FuseArray<'_, D>, pin: u8, row: u16) -> bool
    requires { row < D.table.rows }
    ensures { result ≡ row_reads_level D.table array.now pin row }
{
    for pair in 0..array.device().columns() / 2 {
        if reads_level(array, pin, row, pair) {
            return true;
        }
    }
    false
}

/// Whether a row that may be true reads the level of a pin. Takes no memory.
pub fn is_read<D: Device>(array: &FuseArray<'_, D>, pin: u8) -> bool
    ensures { result ≡ is_read D.table array.now pin }
{
    for row in 0..array.device().rows() {
        if row_reads_level(array, pin, row) {
            return true;
        }
    }
    false
}
