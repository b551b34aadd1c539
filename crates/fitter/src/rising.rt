//! Rows in rising order of their fuses as text.

ghost use Rattle.std.specs.Prelude.{◌≡◌, ◌<◌, ◌≤◌, if◌then◌else◌};
ghost use Rattle.fitter.specs.Prelude.{IsPermutation, fuse_at};
ghost use Rattle.fitter.specs.Rows.{Rises, row_number};

use covers::Cube;
use pld_device::{Device, Loaded};

/// The fuse of a column in the row of a cube.
fn column_fuse(cube: Cube, column: u16) -> bool
    requires { column < 64 }
    ensures { result ≡ fuse_at cube column }
{
    let asked = if column % 2 == 0 { cube.yes } else { cube.no };
    asked >> (column / 2) & 1 == 0
}

/// That fuse as a number.
fn fuse_digit(cube: Cube, column: u16) -> u64
    requires { column < 64 }
    ensures { result ≡ (if fuse_at cube column then 1 else 0) }
{
    if column_fuse(cube, column) { 1 } else { 0 }
}

/// The first fuses of the row of a cube as a binary number, column 0 first.
fn row_number(cube: Cube, columns: u16) -> u64
    requires { columns ≤ 44 }
    ensures { result ≡ row_number columns cube }
{
    let mut number = 0;
    for column in 0..columns {
        let digit = fuse_digit(cube, column);
        number = 2 * number + digit;
    }
    number
}

/// All its fuses as a number.
fn number_of<D: Device>(device: &Loaded<D>, cube: Cube) -> u64
    ensures { result ≡ row_number D.table.columns cube }
{
    row_number(cube, device.columns())
}

/// The rows in rising order of their fuses as text. Takes no memory.
pub(crate) fn risen<D: Device>(device: &Loaded<D>, rows: Vec<Cube>) -> Vec<Cube>
    ensures same { IsPermutation rows.items result.items }
    ensures rise { Rises D.table.columns result.items }
{
    let mut rows = rows;
    rows.sort_unstable_by_key(
        |cube| -> u64
            ensures { result ≡ row_number D.table.columns cube.now }
        { number_of::<D>(device, *cube) },
    );
    rows
}
