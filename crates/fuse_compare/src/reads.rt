//! Which pins and Qs the rows of a device read.

ghost use Rattle.std.specs.Prelude.{◌≡◌, ◌<◌, length};
ghost use Rattle.fuse_compare.specs.Prelude.{is_enable_pin, CarryInRange};
ghost use Rattle.fuse_compare.specs.DeviceKnown.{carries, enables_some, is_level_of, is_q_of, known_of, reads_at, row_reads_some, some_read};

use crate::variable::Variable;
use device_logic::{FuseArray, carry_of, cell_of};
use pld_device::{Carry, Device, Enable, Loaded};

/// Whether the pair carries the pin's level.
fn is_level_of<D: Device>(array: &FuseArray<'_, D>, pin: u8, carry: Carry) -> bool
    requires { CarryInRange D.table carry }
    ensures { result ≡ is_level_of D.table array.now pin carry }
{
    match carry {
        Carry::Pin(carried) => carried == pin,
        Carry::Cell(cell) => !array.stores(cell) && cell_of::<D>(array.device(), cell).pin == pin,
    }
}

/// Whether the pair carries the register's Q.
fn is_q_of<D: Device>(array: &FuseArray<'_, D>, cell: u8, carry: Carry) -> bool
    requires { CarryInRange D.table carry }
    ensures { result ≡ is_q_of D.table array.now cell carry }
{
    match carry {
        Carry::Pin(_pin) => false,
        Carry::Cell(carried) => carried == cell && array.stores(carried),
    }
}

/// Whether the pair carries the variable.
fn carries<D: Device>(array: &FuseArray<'_, D>, variable: Variable, carry: Carry) -> bool
    requires { CarryInRange D.table carry }
    ensures { result ≡ carries D.table array.now variable carry }
{
    match variable {
        Variable::Pin(pin) => is_level_of(array, pin, carry),
        Variable::Q(cell) => is_q_of(array, cell, carry),
    }
}

/// Whether the row reads the pair, and it carries the variable.
fn reads_at<D: Device>(array: &FuseArray<'_, D>, variable: Variable, row: u16, pair: u16) -> bool
    requires row { row < D.table.rows }
    requires pair { pair < length D.table.pairs }
    ensures { result ≡ reads_at D.table array.now (carries D.table array.now variable) row pair }
{
    array.row_reads(row, pair) && carries(array, variable, carry_of::<D>(array.device(), pair))
}

/// Whether the row reads the variable.
fn row_reads<D: Device>(array: &FuseArray<'_, D>, variable: Variable, row: u16) -> bool
    requires { row < D.table.rows }
    ensures { result ≡ row_reads_some D.table array.now (carries D.table array.now variable) row }
{
    for pair in 0..array.device().columns() / 2 {
        if reads_at(array, variable, row, pair) {
            return true;
        }
    }
    false
}

/// Whether some row reads the variable.
fn is_read<D: Device>(array: &FuseArray<'_, D>, variable: Variable) -> bool
    ensures { result ≡ some_read D.table array.now (carries D.table array.now variable) }
{
    for row in 0..array.device().rows() {
        if row_reads(array, variable, row) {
            return true;
        }
    }
    false
}

/// Whether it is the pin that enables.
fn is_enable_pin(pin: u8, enable: Enable) -> bool
    ensures { result ≡ is_enable_pin pin enable }
{
    match enable {
        Enable::PinLow(enabling) => enabling == pin,
        Enable::Row(_) | Enable::Driven | Enable::Released => false,
    }
}

/// Whether the pin enables some cell.
fn enables_some<D: Device>(device: &Loaded<D>, pin: u8) -> bool
    ensures { result ≡ enables_some D.table pin }
{
    for cell in 0..device.cells() {
        if is_enable_pin(pin, cell_of::<D>(device, cell).enable) {
            return true;
        }
    }
    false
}

/// Whether some row reads the pin's level, or the pin enables a cell.
pub fn knows_pin<D: Device>(array: &FuseArray<'_, D>, pin: u8) -> bool
    ensures { result ≡ (known_of D.table array.now).pins pin }
{
    is_read(array, Variable::Pin(pin)) || enables_some::<D>(array.device(), pin)
}

/// Whether some row reads the register's Q.
pub fn knows_q<D: Device>(array: &FuseArray<'_, D>, cell: u8) -> bool
    ensures { result ≡ (known_of D.table array.now).q cell }
{
    is_read(array, Variable::Q(cell))
}
