//! The levels of a cell that no row of it sets.

ghost use Rattle.std.specs.Prelude.{◌≡◌, ◌<◌, ◌≤◌, ◌+◌, IfSome, length};
ghost use Rattle.std.specs.List.{list_any, range_with_len};
ghost use Rattle.pld_device.specs.Macrocells.{pin_complements};
ghost use Rattle.page_model.specs.Idle.{has_live_row, idle_levels, idle_of, is_clocked, is_idle, is_live_if_any, is_live_row};

use device_logic::{FuseArray, cell_of};
use pld_device::{Device, Flip};

/// The only levels that a cell drives if no row of it may be true: that of a gate, or of a register after power-up, and that of
/// a register after its clock.
#[derive(Clone, Copy, PartialEq, Eq)]
pub struct IdleLevels {
    pub first: bool,
    pub later: bool,
}

/// Whether one of the rows from this one on may be true.
fn is_some_live<D: Device>(array: &FuseArray<'_, D>, first: u16, room: u8) -> bool
    requires { first + room ≤ D.table.rows }
    ensures { result ≡ list_any (is_live_row D.table array.now) (range_with_len first room) }
{
    for row in first..first + u16::from(room) {
        if array.is_live(row) {
            return true;
        }
    }
    false
}

/// Whether some data row of a cell may be true.
fn has_live_row<D: Device>(array: &FuseArray<'_, D>, cell: u8) -> bool
    requires { cell < length D.table.cells }
    ensures { result ≡ has_live_row D.table array.now cell }
{
    let found = cell_of::<D>(array.device(), cell);
    is_some_live(array, found.first, found.room)
}

/// Whether the row that there may be may be true.
fn is_live_if_any<D: Device>(array: &FuseArray<'_, D>, row: Option<u16>) -> bool
    requires { IfSome row (λ r. r < D.table.rows) }
    ensures { result ≡ is_live_if_any D.table array.now row }
{
    match row {
        None => false,
        Some(row) => array.is_live(row),
    }
}

/// Whether no row sets a cell's output.
fn is_idle<D: Device>(array: &FuseArray<'_, D>, cell: u8) -> bool
    requires { cell < length D.table.cells }
    ensures { result ≡ is_idle D.table array.now cell }
{
    let is_preset = array.stores(cell) && is_live_if_any(array, array.device().preset());
    !has_live_row(array, cell) && !is_preset
}

/// Whether the pin of a cell has the complement of its output.
pub fn pin_complements(flip: Flip, is_register: bool, inverted: bool) -> bool
    ensures { result ≡ pin_complements flip is_register inverted }
{
    match flip {
        Flip::Always => true,
        Flip::AfterRegister => inverted,
        Flip::BeforeRegister => is_register || inverted,
    }
}

/// The levels of a cell that no row sets.
fn idle_of(flip: Flip, is_register: bool, inverted: bool) -> IdleLevels
    ensures { result ≡ idle_of flip is_register inverted }
{
    let first = pin_complements(flip, is_register, inverted);
    let takes_one = is_register && flip == Flip::BeforeRegister && !inverted;
    IdleLevels {
        first,
        later: first != takes_one,
    }
}

/// The levels of a cell, if no row sets them. Takes no memory.
pub fn idle_levels<D: Device>(array: &FuseArray<'_, D>, cell: u8) -> Option<IdleLevels>
    requires { cell < length D.table.cells }
    ensures { result ≡ idle_levels D.table array.now cell }
{
    if !is_idle(array, cell) {
        return None;
    }
    Some(idle_of(
        array.device().flip(),
        array.stores(cell),
        array.is_inverted(cell),
    ))
}

/// Whether a cell is a register whose level may change at its clock. Takes no memory.
pub fn is_clocked<D: Device>(array: &FuseArray<'_, D>, cell: u8) -> bool
    requires { cell < length D.table.cells }
    ensures { result ≡ is_clocked D.table array.now cell }
{
    if !array.stores(cell) {
        return false;
    }
    match idle_levels(array, cell) {
        Some(idle) => idle.first != idle.later,
        None => true,
    }
}
