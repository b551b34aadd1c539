//! What the cells of a device drive and store, by the masks of its rows.

ghost use Rattle.std.specs.Prelude.{◌≡◌, ◌+◌, ◌<◌, ◌≤◌, IfSome, length};
ghost use Rattle.device_logic.specs.Prelude.{list_any, range_with_len, levels_of, data_complements, is_enabled, next_q, or_value, output_value, pin_complements, pin_level, row_if_any, row_value};

use crate::logic::DeviceLogic;
use crate::lookups::cell_of;
use pld_base::{Point, level_at};
use pld_device::{Device, Enable, Flip};

/// Whether the pin has the complement of a cell's output.
fn pin_complements(flip: Flip, is_register: bool, inverted: bool) -> bool
    ensures { result ≡ pin_complements flip is_register inverted }
{
    match flip {
        Flip::Always => true,
        Flip::AfterRegister => inverted,
        Flip::BeforeRegister => is_register || inverted,
    }
}

/// Whether a register takes the complement of its data.
fn data_complements(flip: Flip, inverted: bool) -> bool
    ensures { result ≡ data_complements flip inverted }
{
    match flip {
        Flip::Always | Flip::AfterRegister => false,
        Flip::BeforeRegister => !inverted,
    }
}

impl<'a, D: Device> DeviceLogic<'a, D> {
    /// Whether the row is true, if there is one.
    pub(crate) fn row_if_any(&self, at: &Point, row: Option<u16>) -> bool
        requires { IfSome row (λ r. r < D.table.rows) }
        ensures { result ≡ row_if_any D.table self.now.fuses (levels_of at.now) row }
    {
        match row {
            None => false,
            Some(row) => self.row_value(at, row),
        }
    }

    /// Whether one of the rows from `first` on, a few, is true.
    #[inline(always)]
    fn some_of_few(&self, at: &Point, first: usize, few: u8) -> bool
        requires { first + few ≤ D.table.rows }
        ensures { result ≡ list_any (row_value D.table self.now.fuses (levels_of at.now))
            (range_with_len first few) }
    {
        for row in first..first + usize::from(few) {
            if self.holds_at(at, row) {
                return true;
            }
        }
        false
    }

    /// Whether one of the two rows from `first` on is true.
    #[inline(always)]
    fn some_of_two(&self, at: &Point, first: usize) -> bool
        requires { first + 2 ≤ D.table.rows }
        ensures { result ≡ list_any (row_value D.table self.now.fuses (levels_of at.now))
            (range_with_len first 2) }
    {
        self.holds_at(at, first) || self.holds_at(at, first + 1)
    }

    /// Whether one of the rows from `first` on is true.
    ///
    /// All of a simulation's time goes by here: two rows a turn take less than one after the other.
    #[inline(always)]
    fn some_row(&self, at: &Point, first: u16, room: u8) -> bool
        requires { first + room ≤ D.table.rows }
        ensures { result ≡ list_any (row_value D.table self.now.fuses (levels_of at.now))
            (range_with_len first room) }
    {
        let start = usize::from(first);
        let pairs = usize::from(room / 2);
        for pair in 0..pairs {
            if self.some_of_two(at, start + 2 * pair) {
                return true;
            }
        }
        self.some_of_few(at, start + 2 * pairs, room % 2)
    }

    /// Whether some data row of the cell is true.
    #[inline(always)]
    fn or_value(&self, at: &Point, cell: u8) -> bool
        requires { cell < length D.table.cells }
        ensures { result ≡ or_value D.table self.now.fuses (levels_of at.now) cell }
    {
        let found = cell_of::<D>(self.device(), cell);
        self.some_row(at, found.first, found.room)
    }

    /// What is at the cell's output: its Q if it stores, else its OR.
    fn output_value(&self, at: &Point, cell: u8) -> bool
        requires { cell < length D.table.cells }
        ensures { result ≡ output_value D.table self.now.fuses (levels_of at.now) cell }
    {
        if self.array().stores(cell) {
            level_at(at.q, cell)
        } else {
            self.or_value(at, cell)
        }
    }

    /// The level with which the cell drives its pin while it is enabled.
    pub(crate) fn pin_level(&self, at: &Point, cell: u8) -> bool
        requires { cell < length D.table.cells }
        ensures { result ≡ pin_level D.table self.now.fuses (levels_of at.now) cell }
    {
        let output = self.output_value(at, cell);
        if pin_complements(
            self.device().flip(),
            self.array().stores(cell),
            self.array().is_inverted(cell),
        ) {
            !output
        } else {
            output
        }
    }

    /// The Q that the cell's data ask for.
    pub(crate) fn next_q(&self, at: &Point, cell: u8) -> bool
        requires { cell < length D.table.cells }
        ensures { result ≡ next_q D.table self.now.fuses (levels_of at.now) cell }
    {
        let value = self.or_value(at, cell);
        if data_complements(self.device().flip(), self.array().is_inverted(cell)) {
            !value
        } else {
            value
        }
    }

    /// Whether the cell drives its pin.
    pub(crate) fn is_enabled(&self, at: &Point, cell: u8) -> bool
        requires { cell < length D.table.cells }
        ensures { result ≡ is_enabled D.table self.now.fuses (levels_of at.now) cell }
    {
        match cell_of::<D>(self.device(), cell).enable {
            Enable::Row(row) => self.row_value(at, row),
            Enable::PinLow(pin) => !level_at(at.pins, pin),
            Enable::Driven => true,
            Enable::Released => false,
        }
    }
}
