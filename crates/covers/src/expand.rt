//! Expansion: each needed cube is made as large as the allowed cover lets it be.
//!
//! The idea is that of espresso's expand. A literal can be left out of a cube if the allowed cover has all of the
//! larger cube; what is left once each literal was tried is prime, since a literal that a cube needs a larger one needs
//! too. A needed cube that already lies in a row gets none of its own.
//!
//! Which prime a cube becomes depends on the order in which its literals are tried (`src/votes.rt`).
//!
//! Names: `cube` is the needed cube, `found` what it has become, `left` the variables whose literals are still to be
//! tried, `votes` the votes by variable, `rows` the rows so far, `marks` the needed cubes that lie in one.

ghost use Rattle.std.specs.Prelude.{◌≡◌, ◌+◌, ◌-◌, ◌*◌, ◌<◌, ◌≤◌, true, length, take, drop};
ghost use Rattle.covers.specs.Cubes.{AllAskBelow, AsksBelow, Grows, asks, literal_cube, without};
ghost use Rattle.covers.specs.Covers.{CoversCube, CoversList};
ghost use Rattle.covers.specs.Prime.{IsPrime};
ghost use Rattle.covers.specs.Pool.{LiesIn, cubes_in};
ghost use Rattle.covers.specs.Expanded.{IsExpanded};
ghost use Rattle.covers.specs.Off.{IsOff};

use crate::allowed::{Allowed, is_allowed};
use crate::cube::{Cube, Literal};
use crate::pool::{CubePool, Range};
use crate::rows::has_row;
use crate::votes::{Marks, mark_covered, most_voted, votes};

/// The cube without the literal, if the allowed cover has all of that.
fn expanded_at(pool: &mut CubePool, allowed: &Allowed, cube: Cube, tried: Literal, vars: u8) -> Cube
    requires variable { tried.variable < vars }
    requires vars { vars ≤ 22 }
    requires allowed { LiesIn pool.old allowed.now.range }
    requires below { AllAskBelow vars (cubes_in pool.old allowed.now.range) }
    requires off { IsOff (cubes_in pool.old allowed.now.range) vars allowed.now.off }
    requires cube { AsksBelow vars cube }
    requires spare { 24 * (allowed.now.range.to - allowed.now.range.from) + 24 ≤ pool.old.spare }
    requires inside { CoversCube (cubes_in pool.old allowed.now.range) cube vars }
    ensures same { pool.new ≡ pool.old }
    ensures below { AsksBelow vars result }
    ensures inside { CoversCube (cubes_in pool.old allowed.now.range) result vars }
    ensures grows { Grows vars cube result }
    ensures tried { asks tried.variable tried.level result ≡ true → CoversCube (cubes_in pool.old allowed.now.range) (without (literal_cube tried.variable tried.level) result) vars → ⊥ }
{
    if !cube.asks(tried.variable, tried.level) {
        return cube;
    }
    let larger = cube.without(Cube::literal(tried.variable, tried.level));
    if is_allowed(pool, allowed, larger, vars) {
        return larger;
    }
    cube
}

/// The cube without each literal that can be left out.
fn expanded(pool: &mut CubePool, allowed: &Allowed, votes: &[u32; 32], cube: Cube, vars: u8) -> Cube
    requires vars { vars ≤ 22 }
    requires allowed { LiesIn pool.old allowed.now.range }
    requires below { AllAskBelow vars (cubes_in pool.old allowed.now.range) }
    requires off { IsOff (cubes_in pool.old allowed.now.range) vars allowed.now.off }
    requires cube { AsksBelow vars cube }
    requires spare { 24 * (allowed.now.range.to - allowed.now.range.from) + 24 ≤ pool.old.spare }
    requires inside { CoversCube (cubes_in pool.old allowed.now.range) cube vars }
    ensures same { pool.new ≡ pool.old }
    ensures below { AsksBelow vars result }
    ensures inside { CoversCube (cubes_in pool.old allowed.now.range) result vars }
    ensures grows { Grows vars cube result }
    ensures prime { IsPrime (cubes_in pool.old allowed.now.range) vars result }
{
    let mut found = cube;
    let mut left = cube.yes | cube.no;
    while left != 0 {
        let variable = most_voted(votes, left);
        let first = expanded_at(
            pool,
            allowed,
            found,
            Literal {
                variable,
                level: true,
            },
            vars,
        );
        found = expanded_at(
            pool,
            allowed,
            first,
            Literal {
                variable,
                level: false,
            },
            vars,
        );
        left &= !(1 << variable);
    }
    found
}

/// Appends each needed cube, expanded, except for those that lie in a row.
pub(crate) fn push_expanded(pool: &mut CubePool, needed: Range, allowed: &Allowed, vars: u8)
    requires vars { vars ≤ 22 }
    requires needed { LiesIn pool.old needed }
    requires allowed { LiesIn pool.old allowed.now.range }
    requires needed_below { AllAskBelow vars (cubes_in pool.old needed) }
    requires allowed_below { AllAskBelow vars (cubes_in pool.old allowed.now.range) }
    requires off { IsOff (cubes_in pool.old allowed.now.range) vars allowed.now.off }
    requires spare { 24 * (allowed.now.range.to - allowed.now.range.from) + (needed.to - needed.from) + 24 ≤ pool.old.spare }
    requires inside { CoversList (cubes_in pool.old allowed.now.range) (cubes_in pool.old needed) vars }
    ensures kept { take (length pool.old.cubes) pool.new.cubes ≡ pool.old.cubes }
    ensures spare { pool.new.spare + length pool.new.cubes ≡ pool.old.spare + length pool.old.cubes }
    ensures rows { IsExpanded (cubes_in pool.old allowed.now.range) (cubes_in pool.old needed) vars (drop (length pool.old.cubes) pool.new.cubes) }
{
    let from = pool.len();
    let mut marks = Marks::none();
    for place in needed.from..needed.to {
        let cube = pool.cube_at(place);
        let rows = Range {
            from,
            to: pool.len(),
        };
        if has_row(pool, rows, cube) {
            continue;
        }
        let votes = votes(&marks, pool, needed, place, cube);
        let row = expanded(pool, allowed, &votes, cube, vars);
        mark_covered(&mut marks, pool, needed, place, row);
        pool.push(row);
    }
}
