//! Whether a cover has every point of a cube, and if not, one that it misses.
//!
//! The idea: at the points of the cube the cover says what its cofactor by the cube says, and that asks none of the
//! cube's variables. So the cover has every point of the cube if the cofactor has every point, and a point that the
//! cofactor misses, moved into the cube, is one that the cover misses.

ghost use Rattle.std.specs.Prelude.{◌≡◌, ◌+◌, ◌-◌, ◌*◌, ◌≤◌, ◌↔◌, IsTrue, length};
ghost use Rattle.covers.specs.Cubes.{AllAskBelow, AsksBelow};
ghost use Rattle.covers.specs.Covers.{CoversCube};
ghost use Rattle.covers.specs.Pool.{cubes_in};
ghost use Rattle.covers.specs.Outside.{FindsOutside};

use crate::cofactors::cube_cofactor;
use crate::cube::Cube;
use crate::pool::{CubePool, Range};
use crate::tautology::{missed_point, moved_into};

/// A point of the cube that no cube of the cover has, or None if the cover has every point of the cube. Bit v of the
/// point is the level of variable v. Takes no memory.
pub fn point_outside(pool: &mut CubePool, cover: Range, cube: Cube, vars: u8) -> Option<u32>
    requires vars { vars ≤ 22 }
    requires order { cover.from ≤ cover.to }
    requires within { cover.to ≤ length pool.old.cubes }
    requires below { AllAskBelow vars (cubes_in pool.old cover) }
    requires cube { AsksBelow vars cube }
    requires spare { 24 * (cover.to - cover.from) + 24 ≤ pool.old.spare }
    ensures answer { FindsOutside (cubes_in pool.old cover) cube vars result }
    ensures same { pool.new ≡ pool.old }
{
    if cube.is_empty() {
        return None;
    }
    let mark = pool.mark();
    let part = cube_cofactor(pool, cover, cube);
    let found = missed_point(pool, part, vars);
    pool.release(mark);
    match found {
        Some(point) => Some(moved_into(point, cube)),
        None => None,
    }
}

/// Whether every point of the cube is in some cube of the cover. Takes no memory.
pub fn covers_cube(pool: &mut CubePool, cover: Range, cube: Cube, vars: u8) -> bool
    requires vars { vars ≤ 22 }
    requires order { cover.from ≤ cover.to }
    requires within { cover.to ≤ length pool.old.cubes }
    requires below { AllAskBelow vars (cubes_in pool.old cover) }
    requires cube { AsksBelow vars cube }
    requires spare { 24 * (cover.to - cover.from) + 24 ≤ pool.old.spare }
    ensures answer { IsTrue result ↔ CoversCube (cubes_in pool.old cover) cube vars }
    ensures same { pool.new ≡ pool.old }
{
    point_outside(pool, cover, cube, vars).is_none()
}
