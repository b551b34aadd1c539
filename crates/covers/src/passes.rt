//! Passes that make a cover shorter.
//!
//! The idea is espresso's: rows that are reduced and expanded anew become other prime rows, of which the others may make up
//! for more. Each pass begins with the rows of the last one, and none makes them more. The passes are made with a copy, and
//! the first rows stay if it is no shorter than they are. Only few rows are worth it: a device has room for sixteen.

ghost use Rattle.std.specs.Prelude.{◌≡◌, ◌+◌, ◌-◌, ◌*◌, ◌≤◌, true, length, take, drop};
ghost use Rattle.covers.specs.Passes.{HasRows, KeepsFewer};

use crate::allowed::Allowed;
use crate::expand::push_expanded;
use crate::irredundant::leave_out;
use crate::moving::{copy_rows, move_down};
use crate::pool::{CubePool, Mark, Range};
use crate::reduce::reduce;

/// How many passes are made.
const PASSES: u8 = 6;

/// With how many rows at most.
const FEW: usize = 64;

/// Reduces the rows from `from` on, expands them, and leaves out what the others make up for.
fn pass(pool: &mut CubePool, from: usize, needed: Range, allowed: &Allowed, vars: u8)
    requires vars { vars ≤ 22 }
    requires rows { HasRows needed allowed.now vars from pool.old }
    requires few { length pool.old.cubes - from ≤ 64 }
    requires room { 24 * (allowed.now.range.to - allowed.now.range.from) + 1664 ≤ pool.old.spare }
    ensures rows { HasRows needed allowed.now vars from pool.new }
    ensures kept { take from pool.new.cubes ≡ take from pool.old.cubes }
    ensures few { length pool.new.cubes ≤ length pool.old.cubes }
    ensures spare { pool.new.spare + length pool.new.cubes ≡ pool.old.spare + length pool.old.cubes }
{
    reduce(pool, from, needed, vars);
    let to = pool.len();
    push_expanded(pool, Range { from, to }, allowed, vars);
    leave_out(pool, to, needed, vars);
    move_down(pool, from, to);
}

/// Whether there are few rows from `from` on, and room for the passes.
fn can_pass(pool: &CubePool, from: usize, allowed: &Allowed) -> bool
    requires from { from ≤ length pool.now.cubes }
    requires allowed { allowed.now.range.from ≤ allowed.now.range.to }
    ensures few { result ≡ true → length pool.now.cubes - from ≤ 64 }
    ensures room { result ≡ true → 24 * (allowed.now.range.to - allowed.now.range.from) + 1728 ≤ pool.now.spare }
{
    let rows = pool.len() - from;
    let count = allowed.range.to - allowed.range.from;
    let shares = pool.spare() / 24;
    1 < rows && rows <= FEW && count < shares && 72 <= shares - count
}

/// Puts the rows from `second` on in the place of those from `first` on, if they are fewer.
fn keep_fewer(pool: &mut CubePool, first: usize, second: usize)
    requires order { first ≤ second }
    requires second { second ≤ length pool.old.cubes }
    ensures cubes { KeepsFewer first second pool.old.cubes pool.new.cubes }
    ensures spare { pool.new.spare + length pool.new.cubes ≡ pool.old.spare + length pool.old.cubes }
{
    if pool.len() - second < second - first {
        move_down(pool, first, second);
    } else {
        pool.release(Mark { length: second });
    }
}

/// Makes the rows from `from` on fewer, if passes find fewer.
pub(crate) fn shorten(pool: &mut CubePool, from: usize, needed: Range, allowed: &Allowed, vars: u8)
    requires vars { vars ≤ 22 }
    requires rows { HasRows needed allowed.now vars from pool.old }
    ensures rows { HasRows needed allowed.now vars from pool.new }
    ensures kept { take from pool.new.cubes ≡ take from pool.old.cubes }
    ensures few { length pool.new.cubes ≤ length pool.old.cubes }
    ensures spare { pool.new.spare + length pool.new.cubes ≡ pool.old.spare + length pool.old.cubes }
{
    if !can_pass(pool, from, allowed) {
        return;
    }
    let second = pool.len();
    copy_rows(pool, from);
    for _ in 0..PASSES {
        pass(pool, second, needed, allowed, vars);
    }
    keep_fewer(pool, from, second);
}
