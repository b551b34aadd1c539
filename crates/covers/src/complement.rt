//! The complement of a cube, as a cover.
//!
//! The idea is De Morgan's law: a point is outside the cube if it has the opposite of some literal. So each literal
//! gives one cube, of its opposite alone, in the order of variables.

ghost use Rattle.std.specs.Prelude.{◌≡◌, ◌+◌, ◌-◌, ◌*◌, ◌<◌, ◌≤◌, Bool, List, false, not, ◌++◌, length};
ghost use Rattle.covers.specs.Cubes.{AsksBelow, covers, has_point, is_empty};
ghost use Rattle.covers.specs.Cofactors.{complement_of, opposites_at};

use crate::cube::Cube;
use crate::pool::{CubePool, Range};

/// Appends the opposites of the cube's literals of one variable.
fn push_opposites(pool: &mut CubePool, cube: Cube, variable: u8)
    requires variable { variable < 32 }
    requires spare { length (opposites_at cube variable) ≤ pool.old.spare }
    ensures cubes { pool.new.cubes ≡ pool.old.cubes ++ opposites_at cube variable }
    ensures spare { pool.new.spare + length pool.new.cubes ≡ pool.old.spare + length pool.old.cubes }
{
    if cube.asks(variable, true) {
        pool.push(Cube::literal(variable, false));
    }
    if cube.asks(variable, false) {
        pool.push(Cube::literal(variable, true));
    }
}

/// Appends one cube of one literal per literal of the cube: together they have the points outside the cube. Takes no
/// memory.
pub fn complement_cube(pool: &mut CubePool, cube: Cube, vars: u8) -> Range
    requires vars { vars ≤ 22 }
    requires below { AsksBelow vars cube }
    requires single { is_empty cube ≡ false }
    requires spare { 24 ≤ pool.old.spare }
    ensures from { result.from ≡ length pool.old.cubes }
    ensures to { result.to ≡ length pool.new.cubes }
    ensures cubes { pool.new.cubes ≡ pool.old.cubes ++ complement_of cube vars }
    ensures spare { pool.new.spare + length pool.new.cubes ≡ pool.old.spare + length pool.old.cubes }
    ensures points { (p : List Bool) → length p ≡ vars → covers (complement_of cube vars) p ≡ not (has_point cube p) }
{
    let from = pool.len();
    for variable in 0..vars {
        push_opposites(pool, cube, variable);
    }
    let to = pool.len();
    Range { from, to }
}
