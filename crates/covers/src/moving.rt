//! Rows that are copied to the end of the pool, and rows that move down in it.

ghost use Rattle.std.specs.Prelude.{◌≡◌, ◌+◌, ◌-◌, ◌≤◌, ◌++◌, length, take, drop};

use crate::pool::{CubePool, Mark};

/// Moves what is from `from` on to the place, and lets go what was between: at least as many cubes.
pub(crate) fn move_down(pool: &mut CubePool, place: usize, from: usize)
    requires order { place ≤ from }
    requires from { from ≤ length pool.old.cubes }
    requires few { length pool.old.cubes - from ≤ from - place }
    ensures cubes { pool.new.cubes ≡ take place pool.old.cubes ++ drop from pool.old.cubes }
    ensures spare { pool.new.spare + length pool.new.cubes ≡ pool.old.spare + length pool.old.cubes }
{
    let count = pool.len() - from;
    for step in 0..count {
        pool.swap(place + step, from + step);
    }
    pool.release(Mark {
        length: place + count,
    });
}

/// Copies what is from `from` on to the end.
pub(crate) fn copy_rows(pool: &mut CubePool, from: usize)
    requires from { from ≤ length pool.old.cubes }
    requires spare { length pool.old.cubes - from ≤ pool.old.spare }
    ensures cubes { pool.new.cubes ≡ pool.old.cubes ++ drop from pool.old.cubes }
    ensures spare { pool.new.spare + length pool.new.cubes ≡ pool.old.spare + length pool.old.cubes }
{
    let to = pool.len();
    for place in from..to {
        let row = pool.cube_at(place);
        pool.push(row);
    }
}
