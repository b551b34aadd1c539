//! Functions with known minima, and the longest list that lowering gives.

ghost use Rattle.std.specs.Prelude.{◌≡◌, ◌+◌, ◌-◌, ◌*◌, ◌≤◌, IfSome, length, max, take, drop};
ghost use Rattle.covers.specs.Cubes.{AllAskBelow};
ghost use Rattle.covers.specs.Covers.{CoversList};
ghost use Rattle.covers.specs.Pool.{LiesIn, cubes_in};

use crate::functions::{Function, Value, function_of};
use covers::{Cube, CubePool, Range, minimise};
use std::alloc::Global;
use test_rows::Found;

/// Appends the cube; false if there is no room, or it asks a variable from `vars` on.
fn push_below(pool: &mut CubePool, cube: Cube, vars: u8) -> bool
    requires { vars ≤ 22 }
    ensures kept { take (length pool.old.cubes) pool.new.cubes ≡ pool.old.cubes }
    ensures below { AllAskBelow vars (drop (length pool.old.cubes) pool.new.cubes) }
{
    if pool.spare() == 0 || !cube.asks_below(vars) {
        return false;
    }
    pool.push(cube);
    true
}

/// Appends each point with the value as a cube; false if there is no room.
fn push_points(pool: &mut CubePool, function: &Function, vars: u8, wanted: Value) -> bool
    requires { vars ≤ 8 }
    ensures kept { take (length pool.old.cubes) pool.new.cubes ≡ pool.old.cubes }
    ensures below { AllAskBelow vars (drop (length pool.old.cubes) pool.new.cubes) }
{
    for point in 0..1u32 << vars {
        if function.value(vars, point) != wanted {
            continue;
        }
        let cube = Cube {
            yes: point,
            no: !point & ((1 << vars) - 1),
        };
        if !push_below(pool, cube, vars) {
            return false;
        }
    }
    true
}

/// Appends a function's needed and allowed points; None if there is too little room for a call.
fn pushed(pool: &mut CubePool, function: &Function, vars: u8) -> Option<(Range, Range)>
    requires { vars ≤ 8 }
    ensures needed { IfSome result (λ r. LiesIn pool.new r.0) }
    ensures allowed { IfSome result (λ r. LiesIn pool.new r.1) }
    ensures needed_below { IfSome result (λ r. AllAskBelow vars (cubes_in pool.new r.0)) }
    ensures allowed_below { IfSome result (λ r. AllAskBelow vars (cubes_in pool.new r.1)) }
    ensures inside { IfSome result (λ r. CoversList (cubes_in pool.new r.1) (cubes_in pool.new r.0) vars) }
    ensures room { IfSome result (λ r. 24 * max (r.0.to - r.0.from) (r.1.to - r.1.from) + (r.0.to - r.0.from) + 24 ≤ pool.new.spare) }
{
    let from = pool.len();
    if !push_points(pool, function, vars, Value::One) {
        return None;
    }
    let middle = pool.len();
    if !push_points(pool, function, vars, Value::Either) {
        return None;
    }
    let to = pool.len();
    if to - from >= pool.spare() / 25 {
        return None;
    }
    Some((Range { from, to: middle }, Range { from, to }))
}

/// The rows of a minimised function; None if there is no room for the call.
fn rows_of(alloc: Global, function: &Function, vars: u8) -> Option<usize>
    requires { vars ≤ 8 }
{
    let mut pool = CubePool::with_room(alloc, 8_000).ok()?;
    let (needed, allowed) = pushed(&mut pool, function, vars)?;
    let spare = pool.spare();
    let rows = minimise(&mut pool, needed, allowed, vars);
    if pool.spare() + (rows.to - rows.from) != spare {
        return None;
    }
    Some(rows.to - rows.from)
}

/// How many rows the cover of a function has. A text says what it is, how many inputs it has, its kind, and what is
/// reported of it.
fn known_rows(alloc: Global, text: &str) -> Option<usize> {
    let mut parts = text.split('|').skip(1);
    let vars = parts.next()?.trim().parse::<u8>().ok()?;
    if vars > 8 {
        return None;
    }
    let kind = parts.next()?.trim();
    let function = function_of(kind, parts.next()?.trim())?;
    rows_of(alloc, &function, vars)
}

/// How many rows the cover of a function has.
pub(crate) fn put_known(alloc: Global, text: &str, found: &mut Found) -> Option<()> {
    found.number(known_rows(alloc, text)?);
    Some(())
}

/// The least number of rows, which follows the function, if its cover has so many or one more; else how many it has.
pub(crate) fn put_near(alloc: Global, text: &str, found: &mut Found) -> Option<()> {
    let (function, least) = text.rsplit_once('|')?;
    let least = least.trim().parse::<usize>().ok()?;
    let rows = known_rows(alloc, function)?;
    if rows == least || rows == least.saturating_add(1) {
        found.text("near ");
        found.number(least);
    } else {
        found.number(rows);
    }
    Some(())
}

/// Appends the products of ten comparisons of two bits: at each place both are 1 or both are 0.
fn push_equal(pool: &mut CubePool) -> bool
    ensures kept { take (length pool.old.cubes) pool.new.cubes ≡ pool.old.cubes }
    ensures below { AllAskBelow 20 (drop (length pool.old.cubes) pool.new.cubes) }
{
    for number in 0..1024u32 {
        let cube = Cube {
            yes: number | number << 10,
            no: (1023 - number) | (1023 - number) << 10,
        };
        if !push_below(pool, cube, 20) {
            return false;
        }
    }
    true
}

/// How many of the products of ten comparisons are kept, and whether the room falls by as many.
pub(crate) fn put_comparisons(alloc: Global, found: &mut Found) -> Option<()> {
    let mut pool = CubePool::with_room(alloc, 49_152).ok()?;
    let from = pool.len();
    if !push_equal(&mut pool) {
        return None;
    }
    let list = Range {
        from,
        to: pool.len(),
    };
    let spare = pool.spare();
    if list.to - list.from >= spare / 25 {
        return None;
    }
    let rows = minimise(&mut pool, list, list, 20);
    found.number(rows.to - rows.from);
    found.text(if pool.spare() + 1024 == spare {
        ", room for as many fewer"
    } else {
        ", with another room"
    });
    Some(())
}
