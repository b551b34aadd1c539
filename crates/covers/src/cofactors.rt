//! The cofactor of a cover: what is left of it at the points of a cube.
//!
//! By a cube: the cubes of the cover that meet it, each without its literals. The cofactor by one literal is the
//! Shannon cofactor. At the points of the cube both covers say the same, and the cofactor asks none of the cube's
//! variables, so that it speaks of fewer.
//!
//! Names: `by` is the cube, `cover` the range that is read, and the cofactor is appended to the pool.

ghost use Rattle.std.specs.Prelude.{◌≡◌, ◌+◌, ◌-◌, ◌*◌, ◌<◌, ◌≤◌, [], ◌∷◌, ◌++◌, length};
ghost use Rattle.covers.specs.Cubes.{literal_cube};
ghost use Rattle.covers.specs.Pool.{cubes_in};
ghost use Rattle.covers.specs.Cofactors.{IsCofactor, cofactor_of};

use crate::cube::Cube;
use crate::pool::{CubePool, Range};

/// Appends what the cofactor keeps of one cube.
fn push_cofactor(pool: &mut CubePool, cube: Cube, by: Cube)
    requires { 0 < pool.old.spare }
    ensures cubes { pool.new.cubes ≡ pool.old.cubes ++ cofactor_of by (cube ∷ []) }
    ensures spare { pool.new.spare + length pool.new.cubes ≡ pool.old.spare + length pool.old.cubes }
    ensures few { length pool.new.cubes ≤ length pool.old.cubes + 1 }
{
    if by.meets(cube) {
        pool.push(cube.without(by));
    }
}

/// Appends the cofactor of the cover by the cube. Takes no memory.
pub(crate) fn cube_cofactor(pool: &mut CubePool, cover: Range, by: Cube) -> Range
    requires order { cover.from ≤ cover.to }
    requires within { cover.to ≤ length pool.old.cubes }
    requires spare { cover.to ≤ cover.from + pool.old.spare }
    ensures from { result.from ≡ length pool.old.cubes }
    ensures to { result.to ≡ length pool.new.cubes }
    ensures cubes { pool.new.cubes ≡ pool.old.cubes ++ cofactor_of by (cubes_in pool.old cover) }
    ensures spare { pool.new.spare + length pool.new.cubes ≡ pool.old.spare + length pool.old.cubes }
    ensures order { result.from ≤ result.to }
    ensures few { length pool.new.cubes + cover.from ≤ length pool.old.cubes + cover.to }
{
    let from = pool.len();
    for place in cover.from..cover.to {
        let cube = pool.cube_at(place);
        push_cofactor(pool, cube, by);
    }
    let to = pool.len();
    Range { from, to }
}

/// Appends the cubes of the cover that allow the level of the variable, each without that literal. Takes no memory.
pub fn cofactor(pool: &mut CubePool, cover: Range, variable: u8, level: bool, vars: u8) -> Range
    requires vars { vars ≤ 22 }
    requires variable { variable < vars }
    requires order { cover.from ≤ cover.to }
    requires within { cover.to ≤ length pool.old.cubes }
    requires spare { 24 * (cover.to - cover.from) + 24 ≤ pool.old.spare }
    ensures from { result.from ≡ length pool.old.cubes }
    ensures to { result.to ≡ length pool.new.cubes }
    ensures cubes { pool.new.cubes ≡ pool.old.cubes ++ cofactor_of (literal_cube variable level) (cubes_in pool.old cover) }
    ensures spare { pool.new.spare + length pool.new.cubes ≡ pool.old.spare + length pool.old.cubes }
    ensures points { IsCofactor (cubes_in pool.old cover) variable level vars (cubes_in pool.new result) }
{
    cube_cofactor(pool, cover, Cube::literal(variable, level))
}
