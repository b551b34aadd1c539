//! Small covers, with what follows for them.

ghost use Rattle.std.specs.Prelude.{◌+◌, ◌-◌, ◌*◌, ◌≤◌, IfSome, length};
ghost use Rattle.covers.specs.Cubes.{AllAskBelow};
ghost use Rattle.covers.specs.Pool.{cubes_in};

use crate::cubes::{cube_of, put_cube, put_cubes};
use covers::{
    Cube, CubePool, Range, cofactor, complement_cube, covers_cube, is_tautology, point_outside,
};
use std::alloc::Global;
use test_rows::Found;

/// Appends the rows; None if they ask a variable from `vars` on, or leave too little room for a call.
fn pushed(pool: &mut CubePool, rows: &str, vars: u8) -> Option<Range>
    requires { vars ≤ 22 }
    ensures order { IfSome result (λ r. r.from ≤ r.to) }
    ensures within { IfSome result (λ r. r.to ≤ length pool.new.cubes) }
    ensures below { IfSome result (λ r. AllAskBelow vars (cubes_in pool.new r)) }
    ensures room { IfSome result (λ r. 24 * (r.to - r.from) + 24 ≤ pool.new.spare) }
{
    let from = pool.len();
    for row in rows.split_whitespace() {
        let cube = cube_of(row);
        if !cube.asks_below(vars) || pool.spare() == 0 {
            return None;
        }
        pool.push(cube);
    }
    let to = pool.len();
    if to - from >= pool.spare() / 24 {
        return None;
    }
    Some(Range { from, to })
}

/// The point that is missed, the first variable first, or `none`.
fn put_point(point: Option<u32>, vars: u8, found: &mut Found)
    requires { vars ≤ 22 }
{
    match point {
        None => found.text("none"),
        Some(point) => {
            let cube = Cube {
                yes: point,
                no: !point,
            };
            found.text("misses");
            if vars > 0 {
                put_cube(cube, vars, found)
            }
        }
    }
}

/// The one point of a cube that a cover misses, or `none`; what the other calls say that is at odds with it, and whether
/// the pool isn't as before. A text says what the cover is, and has its variables, its rows and the cube.
pub(crate) fn put_missed(alloc: Global, text: &str, found: &mut Found) -> Option<()> {
    let mut parts = text.split('|').skip(1);
    let vars = parts.next()?.trim().parse::<u8>().ok()?;
    let rows = parts.next()?;
    let asked = cube_of(parts.next()?.trim());
    if vars > 22 || !asked.asks_below(vars) {
        return None;
    }
    let mut pool = CubePool::with_room(alloc, 200).ok()?;
    let cover = pushed(&mut pool, rows, vars)?;
    let spare = pool.spare();
    let missed = point_outside(&mut pool, cover, asked, vars);
    put_point(missed, vars, found);
    if covers_cube(&mut pool, cover, asked, vars) != missed.is_none() {
        found.text(", at odds with covers_cube");
    }
    if asked == Cube::full() && is_tautology(&mut pool, cover, vars) != missed.is_none() {
        found.text(", at odds with is_tautology");
    }
    if pool.len() != rows.split_whitespace().count() || pool.spare() != spare {
        found.text(", and leaves cubes");
    }
    Some(())
}

/// Appends that a pool with a list of so many cubes more has another room than it should.
fn put_room(pool: &CubePool, count: usize, before: usize, found: &mut Found) {
    match pool.spare().checked_add(count) {
        Some(spare) if spare == before => {}
        _ => found.text(", with another room"),
    }
}

/// The cofactor of a cover of three variables. A text has the rows, and a variable with its level.
pub(crate) fn put_cofactor(alloc: Global, text: &str, found: &mut Found) -> Option<()> {
    let (rows, literal) = text.split_once('|')?;
    let (variable, level) = literal.trim().split_once(" at ")?;
    let variable = variable.parse::<u8>().ok()?;
    if variable >= 3 {
        return None;
    }
    let mut pool = CubePool::with_room(alloc, 200).ok()?;
    let cover = pushed(&mut pool, rows, 3)?;
    let spare = pool.spare();
    let part = cofactor(&mut pool, cover, variable, level == "1", 3);
    let made = pool.slice(part);
    put_cubes(made, 3, found);
    put_room(&pool, made.len(), spare, found);
    Some(())
}

/// The complement of a cube of four variables.
pub(crate) fn put_complement(alloc: Global, text: &str, found: &mut Found) -> Option<()> {
    let mut pool = CubePool::with_room(alloc, 24).ok()?;
    let cube = cube_of(text);
    let spare = pool.spare();
    if spare < 24 || !cube.asks_below(4) || cube.is_empty() {
        return None;
    }
    let part = complement_cube(&mut pool, cube, 4);
    let made = pool.slice(part);
    put_cubes(made, 4, found);
    put_room(&pool, made.len(), spare, found);
    Some(())
}
