//! Irredundance: rows that the others make up for are left out.
//!
//! The idea: a row can be left out if the other rows have each needed point of it, since all rows together have every needed
//! point. So the question is asked only of the needed cubes that meet the row, and of each for what it has in common with
//! it: mostly one other row has all of that, as the row that the needed cube became. The rows are at the end of the pool.
//! Each is put last in its turn, so that the others are one range before it and no second list is made; if it can go, the
//! pool is cut before it. A row that had to stay has to stay in a shorter list too, so one pass is enough.
//!
//! Names: `from` is the place of the first row, `last` the row that is tried.

ghost use Rattle.std.specs.Prelude.{◌≡◌, ◌+◌, ◌-◌, ◌*◌, ◌<◌, ◌≤◌, ◌↔◌, Contains, IsTrue, true, length, take, drop, All};
ghost use Rattle.covers.specs.Cubes.{AllAskBelow, AsksBelow};
ghost use Rattle.covers.specs.Covers.{CoversList};
ghost use Rattle.covers.specs.Prime.{IsIrredundant};
ghost use Rattle.covers.specs.Pool.{LiesIn, cubes_in};
ghost use Rattle.covers.specs.Expanded.{CoversBoth, CoversCommon};

use crate::covers::covers_cube;
use crate::cube::Cube;
use crate::pool::{CubePool, Mark, Range};
use crate::rows::has_row;

/// Whether the cover has every point that two cubes have in common.
fn covers_both(pool: &mut CubePool, cover: Range, other: Cube, cube: Cube, vars: u8) -> bool
    requires vars { vars ≤ 22 }
    requires cover { LiesIn pool.old cover }
    requires below { AllAskBelow vars (cubes_in pool.old cover) }
    requires other { AsksBelow vars other }
    requires cube { AsksBelow vars cube }
    requires spare { 24 * (cover.to - cover.from) + 24 ≤ pool.old.spare }
    ensures answer { IsTrue result ↔ CoversBoth (cubes_in pool.old cover) other cube vars }
    ensures same { pool.new ≡ pool.old }
{
    if !other.meets(cube) {
        return true;
    }
    let both = other.union(cube);
    if has_row(pool, cover, both) {
        return true;
    }
    covers_cube(pool, cover, both, vars)
}

/// Whether the cover has every needed point of the cube.
pub(crate) fn covers_needed(
    pool: &mut CubePool,
    cover: Range,
    needed: Range,
    cube: Cube,
    vars: u8,
) -> bool
    requires vars { vars ≤ 22 }
    requires cover { LiesIn pool.old cover }
    requires needed { LiesIn pool.old needed }
    requires cover_below { AllAskBelow vars (cubes_in pool.old cover) }
    requires needed_below { AllAskBelow vars (cubes_in pool.old needed) }
    requires cube { AsksBelow vars cube }
    requires spare { 24 * (cover.to - cover.from) + 24 ≤ pool.old.spare }
    ensures answer { IsTrue result ↔ CoversCommon (cubes_in pool.old cover) (cubes_in pool.old needed) cube vars }
    ensures same { pool.new ≡ pool.old }
{
    for place in needed.from..needed.to {
        let other = pool.cube_at(place);
        if !covers_both(pool, cover, other, cube, vars) {
            return false;
        }
    }
    true
}

/// Leaves out each row from `from` on that the other rows make up for.
pub(crate) fn leave_out(pool: &mut CubePool, from: usize, needed: Range, vars: u8)
    requires vars { vars ≤ 22 }
    requires from { from ≤ length pool.old.cubes }
    requires order { needed.from ≤ needed.to }
    requires within { needed.to ≤ from }
    requires rows_below { AllAskBelow vars (drop from pool.old.cubes) }
    requires needed_below { AllAskBelow vars (cubes_in pool.old needed) }
    requires spare { 24 * (length pool.old.cubes - from) + 24 ≤ pool.old.spare }
    requires at_needed { CoversList (drop from pool.old.cubes) (cubes_in pool.old needed) vars }
    ensures from { from ≤ length pool.new.cubes }
    ensures kept { take from pool.new.cubes ≡ take from pool.old.cubes }
    ensures few { length pool.new.cubes ≤ length pool.old.cubes }
    ensures spare { pool.new.spare + length pool.new.cubes ≡ pool.old.spare + length pool.old.cubes }
    ensures at_needed { CoversList (drop from pool.new.cubes) (cubes_in pool.old needed) vars }
    ensures irredundant { IsIrredundant (cubes_in pool.old needed) vars (drop from pool.new.cubes) }
    ensures among { All (Contains (drop from pool.old.cubes)) (drop from pool.new.cubes) }
{
    let mut place = pool.len();
    while place > from {
        place -= 1;
        let last = pool.len() - 1;
        pool.swap(place, last);
        let row = pool.cube_at(last);
        let others = Range { from, to: last };
        if covers_needed(pool, others, needed, row, vars) {
            pool.release(Mark { length: last });
        }
    }
}
