//! Reduction: a row asks all that the other rows let it ask.
//!
//! The idea is espresso's reduce. A row can be cut in half by a variable if the other rows have each needed point of
//! one half, and what is left of it is the other. A row so made small can become another prime one, which may take the
//! place of two. The rows are at the end of the pool, and each is put last in its turn, as where rows are left out.
//!
//! Names: `others` is the range of the other rows, `last` the place of the row that is reduced.

ghost use Rattle.std.specs.Prelude.{ℕ, ◌≡◌, ◌+◌, ◌-◌, ◌*◌, ◌<◌, ◌≤◌, true, length, take, drop, List, Bool};
ghost use Rattle.covers.specs.Cubes.{AllAskBelow, AsksBelow, has_point};
ghost use Rattle.covers.specs.Covers.{CoversList};
ghost use Rattle.covers.specs.Pool.{LiesIn, cubes_in};
ghost use Rattle.covers.specs.Reduced.{IsReduced};

use crate::cube::Cube;
use crate::irredundant::covers_needed;
use crate::pool::{CubePool, Mark, Range};

/// What a row is reduced against: the other rows, and what is needed.
#[derive(Clone, Copy)]
struct Against {
    others: Range,
    needed: Range,
}

/// The half of the cube at one level of the variable, if the others have what is needed of the other half.
fn reduced_at(pool: &mut CubePool, against: Against, cube: Cube, variable: u8, vars: u8) -> Cube
    requires vars { vars ≤ 22 }
    requires variable { variable < vars }
    requires others { LiesIn pool.old against.others }
    requires needed { LiesIn pool.old against.needed }
    requires others_below { AllAskBelow vars (cubes_in pool.old against.others) }
    requires needed_below { AllAskBelow vars (cubes_in pool.old against.needed) }
    requires cube { AsksBelow vars cube }
    requires spare { 24 * (against.others.to - against.others.from) + 24 ≤ pool.old.spare }
    ensures same { pool.new ≡ pool.old }
    ensures below { AsksBelow vars result }
    ensures inside { (p : List Bool) → has_point result p ≡ true → has_point cube p ≡ true }
    ensures reduced { IsReduced (cubes_in pool.old against.others) (cubes_in pool.old against.needed) vars cube result }
{
    if (cube.yes | cube.no) >> variable & 1 == 1 {
        return cube;
    }
    let one = cube.union(Cube::literal(variable, true));
    let zero = cube.union(Cube::literal(variable, false));
    if covers_needed(pool, against.others, against.needed, one, vars) {
        return zero;
    }
    if covers_needed(pool, against.others, against.needed, zero, vars) {
        return one;
    }
    cube
}

/// What is left of the row once each variable was tried.
fn reduced(pool: &mut CubePool, others: Range, needed: Range, row: Cube, vars: u8) -> Cube
    requires vars { vars ≤ 22 }
    requires others { LiesIn pool.old others }
    requires needed { LiesIn pool.old needed }
    requires others_below { AllAskBelow vars (cubes_in pool.old others) }
    requires needed_below { AllAskBelow vars (cubes_in pool.old needed) }
    requires row { AsksBelow vars row }
    requires spare { 24 * (others.to - others.from) + 24 ≤ pool.old.spare }
    ensures same { pool.new ≡ pool.old }
    ensures below { AsksBelow vars result }
    ensures inside { (p : List Bool) → has_point result p ≡ true → has_point row p ≡ true }
    ensures reduced { IsReduced (cubes_in pool.old others) (cubes_in pool.old needed) vars row result }
{
    let against = Against { others, needed };
    let mut found = row;
    for variable in 0..vars {
        found = reduced_at(pool, against, found, variable, vars);
    }
    found
}

/// Reduces each row from `from` on.
pub(crate) fn reduce(pool: &mut CubePool, from: usize, needed: Range, vars: u8)
    requires vars { vars ≤ 22 }
    requires from { from ≤ length pool.old.cubes }
    requires order { needed.from ≤ needed.to }
    requires within { needed.to ≤ from }
    requires rows_below { AllAskBelow vars (drop from pool.old.cubes) }
    requires needed_below { AllAskBelow vars (cubes_in pool.old needed) }
    requires spare { 24 * (length pool.old.cubes - from) + 24 ≤ pool.old.spare }
    requires at_needed { CoversList (drop from pool.old.cubes) (cubes_in pool.old needed) vars }
    ensures kept { take from pool.new.cubes ≡ take from pool.old.cubes }
    ensures long { length pool.new.cubes ≡ length pool.old.cubes }
    ensures spare { pool.new.spare ≡ pool.old.spare }
    ensures below { AllAskBelow vars (drop from pool.new.cubes) }
    ensures at_needed { CoversList (drop from pool.new.cubes) (cubes_in pool.old needed) vars }
    ensures inside { CoversList (drop from pool.old.cubes) (drop from pool.new.cubes) vars }
{
    let mut place = pool.len();
    while place > from {
        place -= 1;
        let last = pool.len() - 1;
        pool.swap(place, last);
        let row = pool.cube_at(last);
        let others = Range { from, to: last };
        let smaller = reduced(pool, others, needed, row, vars);
        pool.release(Mark { length: last });
        pool.push(smaller);
    }
}
