//! Whether fuses mean the same, row by row and cell by cell.

ghost use Rattle.std.specs.Prelude.{◌≡◌, ◌<◌, ℕ, length, true};
ghost use Rattle.wrong_fuses.specs.SameTables.{MeanSame, SameKind, SameRow};

use device_logic::DeviceLogic;
use pld_device::Device;

/// Whether a row asks the same of a point.
fn has_same_row<D: Device>(a: &DeviceLogic<'_, D>, b: &DeviceLogic<'_, D>, row: u16) -> bool
    requires { row < D.table.rows }
    ensures { result ≡ true → SameRow D.table a.now.fuses b.now.fuses row }
{
    a.mask(row) == b.mask(row)
}

/// Whether each row does.
fn has_same_rows<D: Device>(a: &DeviceLogic<'_, D>, b: &DeviceLogic<'_, D>) -> bool
    ensures { result ≡ true → (row : ℕ) → row < D.table.rows
        → SameRow D.table a.now.fuses b.now.fuses row }
{
    for row in 0..a.device().rows() {
        if !has_same_row(a, b, row) {
            return false;
        }
    }
    true
}

/// Whether each cell is of the same kind and polarity.
fn has_same_kinds<D: Device>(a: &DeviceLogic<'_, D>, b: &DeviceLogic<'_, D>) -> bool
    ensures { result ≡ true → (c : ℕ) → c < length D.table.cells
        → SameKind D.table a.now.fuses b.now.fuses c }
{
    for cell in 0..a.device().cells() {
        if a.array().stores(cell) != b.array().stores(cell)
            || a.array().is_inverted(cell) != b.array().is_inverted(cell)
        {
            return false;
        }
    }
    true
}

/// Whether each row asks the same of a point, and each cell is of the same kind.
pub fn mean_same<D: Device>(a: &DeviceLogic<'_, D>, b: &DeviceLogic<'_, D>) -> bool
    ensures { result ≡ true → MeanSame D.table a.now.fuses b.now.fuses }
{
    has_same_rows(a, b) && has_same_kinds(a, b)
}
