//! Points at which two covers differ.

ghost use Rattle.std.specs.Prelude.{◌≡◌, ◌+◌, ◌-◌, ◌*◌, ◌≤◌, length};
ghost use Rattle.fitter.specs.Prelude.{AllAskBelow};
ghost use Rattle.covers.specs.Pool.{cubes_in};
ghost use Rattle.fitter.specs.Missing.{FindsApart, FindsMissed};

use covers::{Cube, CubePool, Range, point_outside};

/// A point of the rows that the cubes of a range miss.
fn missed_in(pool: &mut CubePool, rows: &[Cube], cover: Range, vars: u8) -> Option<u32>
    requires vars { vars ≤ 22 }
    requires order { cover.from ≤ cover.to }
    requires within { cover.to ≤ length pool.old.cubes }
    requires below { AllAskBelow vars (cubes_in pool.old cover) }
    requires rows { AllAskBelow vars rows.now }
    requires spare { 24 * (cover.to - cover.from) + 24 ≤ pool.old.spare }
    ensures same { pool.new ≡ pool.old }
    ensures answer { FindsMissed rows.now (cubes_in pool.old cover) vars result }
{
    for row in rows {
        if let Some(point) = point_outside(pool, cover, *row, vars) {
            return Some(point);
        }
    }
    None
}

/// A point of the rows that the cover misses.
fn point_missed(pool: &mut CubePool, rows: &[Cube], cover: &[Cube], vars: u8) -> Option<u32>
    requires vars { vars ≤ 22 }
    requires few { length cover.now ≤ 1024 }
    requires below { AllAskBelow vars cover.now }
    requires rows { AllAskBelow vars rows.now }
    requires spare { 27672 ≤ pool.old.spare }
    ensures same { pool.new ≡ pool.old }
    ensures answer { FindsMissed rows.now cover.now vars result }
{
    let mark = pool.mark();
    let range = pool.push_all(cover);
    let found = missed_in(pool, rows, range, vars);
    pool.release(mark);
    found
}

/// A point at which the two covers differ.
pub(crate) fn point_apart(
    pool: &mut CubePool,
    first: &[Cube],
    second: &[Cube],
    vars: u8,
) -> Option<u32>
    requires vars { vars ≤ 22 }
    requires first_few { length first.now ≤ 1024 }
    requires second_few { length second.now ≤ 1024 }
    requires first_below { AllAskBelow vars first.now }
    requires second_below { AllAskBelow vars second.now }
    requires spare { 27672 ≤ pool.old.spare }
    ensures same { pool.new ≡ pool.old }
    ensures answer { FindsApart first.now second.now vars result }
{
    if let Some(point) = point_missed(pool, first, second, vars) {
        return Some(point);
    }
    point_missed(pool, second, first, vars)
}
