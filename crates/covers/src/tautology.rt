//! Whether a cover has every point.
//!
//! The idea is the unate recursion. A cube that asks nothing has every point. Else a unate variable is set to the level
//! that no cube asks: the cubes that ask it are then of no use, so they go. If no variable is binate no cube is left,
//! and the levels chosen are a point that the cover misses. If one is, the variable that the cubes of most weight ask
//! splits the rest in two covers, one for each of its levels, and the cover has every point at which both have. So at
//! most as many covers are open at once as there are variables, each no longer than the first. A large cube weighs more
//! than a small one, since without one literal more it soon asks nothing: over random covers of hundreds of cubes that
//! halves the number of covers, against the variable that most cubes ask.
//!
//! Names: `asked` has all literals of the cover, `opposite` each unate variable at the level that is not asked, and
//! `branch` is that with one level of the variable that splits.

ghost use Rattle.std.specs.Prelude.{◌≡◌, ◌+◌, ◌-◌, ◌*◌, ◌<◌, ◌≤◌, ◌↔◌, None, IfSome, IsTrue, length};
ghost use Rattle.std.specs.Int.{bit_at};
ghost use Rattle.covers.specs.Cubes.{AllAskBelow};
ghost use Rattle.covers.specs.Covers.{CoversAll};
ghost use Rattle.covers.specs.Pool.{cubes_in};
ghost use Rattle.covers.specs.Cofactors.{cofactor_of};
ghost use Rattle.covers.specs.Outside.{FindsMissed, Misses, moved_number};
ghost use Rattle.covers.specs.Unate.{asked_of, binate_of, branch_of, opposite_of, splits};

use crate::cofactors::cube_cofactor;
use crate::cube::{Cube, Literal};
use crate::pool::{CubePool, Range};
use crate::unate::{asked_literals, has_full, most_asked};

/// The point with the levels that the cube asks.
pub(crate) fn moved_into(point: u32, cube: Cube) -> u32
    ensures { result ≡ moved_number cube point }
{
    (point | cube.yes) & !cube.no
}

/// Each unate variable at the level that is not asked.
fn opposite(asked: Cube) -> Cube
    ensures { result ≡ opposite_of asked }
{
    Cube {
        yes: asked.no & !asked.yes,
        no: asked.yes & !asked.no,
    }
}

/// Those, and one level of the variable that splits.
fn branch(asked: Cube, variable: u8, level: bool) -> Cube
    requires { variable < 32 }
    ensures { result ≡ branch_of asked variable level }
{
    opposite(asked).union(Cube::literal(variable, level))
}

/// A point that the cover misses in one of its two branches.
#[cycle(splitting)]
fn missed_in_branch(
    pool: &mut CubePool,
    cover: Range,
    asked: Cube,
    split: Literal,
    vars: u8,
) -> Option<u32>
    requires variable { split.variable < vars }
    requires vars { vars ≤ 22 }
    requires order { cover.from ≤ cover.to }
    requires within { cover.to ≤ length pool.old.cubes }
    requires below { AllAskBelow vars (cubes_in pool.old cover) }
    requires asked { asked ≡ asked_of (cubes_in pool.old cover) }
    requires binate { bit_at (binate_of asked) split.variable ≡ 1 }
    requires spare { splits vars (cubes_in pool.old cover) * (cover.to - cover.from) ≤ pool.old.spare }
    ensures all { result ≡ None → CoversAll (cofactor_of (branch_of asked split.variable split.level) (cubes_in pool.old cover)) vars }
    ensures missed { IfSome result (λ point. Misses (cubes_in pool.old cover) vars point) }
    ensures same { pool.new ≡ pool.old }
{
    let mark = pool.mark();
    let by = branch(asked, split.variable, split.level);
    let part = cube_cofactor(pool, cover, by);
    let found = missed_point(pool, part, vars);
    pool.release(mark);
    match found {
        Some(point) => Some(moved_into(point, by)),
        None => None,
    }
}

/// A point that the cover misses, or None if it has every point.
#[cycle(splitting)]
pub(crate) fn missed_point(pool: &mut CubePool, cover: Range, vars: u8) -> Option<u32>
    requires vars { vars ≤ 22 }
    requires order { cover.from ≤ cover.to }
    requires within { cover.to ≤ length pool.old.cubes }
    requires below { AllAskBelow vars (cubes_in pool.old cover) }
    requires spare { splits vars (cubes_in pool.old cover) * (cover.to - cover.from) ≤ pool.old.spare }
    ensures answer { FindsMissed (cubes_in pool.old cover) vars result }
    ensures same { pool.new ≡ pool.old }
{
    if has_full(pool, cover) {
        return None;
    }
    let asked = asked_literals(pool, cover);
    let binate = asked.yes & asked.no;
    if binate == 0 {
        return Some(moved_into(0, opposite(asked)));
    }
    let variable = most_asked(pool, cover, binate);
    match missed_in_branch(
        pool,
        cover,
        asked,
        Literal {
            variable,
            level: false,
        },
        vars,
    ) {
        Some(point) => Some(point),
        None => missed_in_branch(
            pool,
            cover,
            asked,
            Literal {
                variable,
                level: true,
            },
            vars,
        ),
    }
}

/// Whether every point is in some cube of the cover. Takes no memory.
pub fn is_tautology(pool: &mut CubePool, cover: Range, vars: u8) -> bool
    requires vars { vars ≤ 22 }
    requires order { cover.from ≤ cover.to }
    requires within { cover.to ≤ length pool.old.cubes }
    requires below { AllAskBelow vars (cubes_in pool.old cover) }
    requires spare { 24 * (cover.to - cover.from) + 24 ≤ pool.old.spare }
    ensures answer { IsTrue result ↔ CoversAll (cubes_in pool.old cover) vars }
    ensures same { pool.new ≡ pool.old }
{
    missed_point(pool, cover, vars).is_none()
}
