//! What a device's rows ask of its column pairs, each as one cube.
//!
//! If two fuse lists make the same cells registers, a pair carries the same with both; so rows of the
//! one can be held against rows of the other by these cubes, as covers over the pairs.

ghost use Rattle.std.specs.Prelude.{◌≡◌, ◌<◌, ◌||◌, IfOk, IsTrue, length};
ghost use Rattle.device_logic.specs.Prelude.{is_on, same_level, row_fuses};
ghost use Rattle.device_logic.specs.Array.{is_live, passes};
ghost use Rattle.device_logic.specs.PairCubes.{ArePairCubes, AsksBesides, IsPairCube};

use crate::array::FuseArray;
use crate::masking::fuse_at;
use covers::Cube;
use pld_base::OutOfMemory;
use pld_device::{Device, Fuses, Loaded};
use std::alloc::Global;

/// How many pairs of columns there are. Takes no memory.
pub fn pair_count<D: Device>(device: &Loaded<D>) -> u8
    ensures { result ≡ length D.table.pairs }
{
    (device.columns() / 2) as u8
}

/// The cube that asks for a level of a pair besides, if the column that carries 1 then is connected.
fn with_column(cube: Cube, pair: u8, level: bool, opened: bool) -> Cube
    requires { pair < 32 }
    ensures { AsksBesides pair cube result (λ p. opened || same_level level (is_on p pair)) }
{
    if opened {
        cube
    } else {
        cube.union(Cube::literal(pair, level))
    }
}

/// The cube that asks for 1 in the connected columns of a pair besides.
fn with_pair<D: Device>(device: &Loaded<D>, cube: Cube, fuses: &[bool], row: u16, pair: u8) -> Cube
    requires size { length fuses.now ≡ D.table.fuses }
    requires row { row < D.table.rows }
    requires pair { pair < length D.table.pairs }
    ensures { AsksBesides pair cube result
        (λ values. passes (row_fuses D.table fuses.now row) values pair) }
{
    let lower = fuse_at::<D>(device, fuses, row, 2 * u16::from(pair));
    let higher = fuse_at::<D>(device, fuses, row, 2 * u16::from(pair) + 1);
    let with_lower = with_column(cube, pair, true, lower);
    with_column(with_lower, pair, false, higher)
}

/// The cube of a row that can be true.
fn live_cube<D: Device>(device: &Loaded<D>, fuses: &[bool], row: u16) -> Cube
    requires size { length fuses.now ≡ D.table.fuses }
    requires row { row < D.table.rows }
    requires live { IsTrue (is_live D.table fuses.now row) }
    ensures { IsPairCube D.table fuses.now row result }
{
    let mut cube = Cube::full();
    for pair in 0..pair_count::<D>(device) {
        cube = with_pair::<D>(device, cube, fuses, row, pair);
    }
    cube
}

/// The cube of a row; one that is never true asks a pair for both levels.
fn cube_of<D: Device>(array: &FuseArray<'_, D>, fuses: &[bool], row: u16) -> Cube
    requires size { length fuses.now ≡ D.table.fuses }
    requires same { array.now ≡ fuses.now }
    requires row { row < D.table.rows }
    ensures { IsPairCube D.table fuses.now row result }
{
    if array.is_live(row) {
        live_cube::<D>(array.device(), fuses, row)
    } else {
        Cube { yes: 1, no: 1 }
    }
}

/// A cube over the column pairs for each row of the device with these fuses: it has the values that the
/// pairs carry at a point at which the row is true there.
pub fn pair_cubes<D: Device>(
    alloc: Global,
    device: &Loaded<D>,
    fuses: &Fuses,
) -> Result<Vec<Cube>, OutOfMemory>
    requires { length fuses.now ≡ D.table.fuses }
    ensures { IfOk result (λ cubes. ArePairCubes D.table fuses.now cubes.items) }
{
    let array = FuseArray::<D>::new(alloc, device, fuses)?;
    let mut cubes = Vec::new(alloc);
    for row in 0..device.rows() {
        cubes.push(cube_of(&array, fuses.levels(), row))?;
    }
    Ok(cubes)
}
