//! Cubes beside each other, and a pool of them.

use crate::cubes::put_blank;
use covers::{Cube, CubePool, Range};
use std::alloc::Global;
use test_rows::Found;

/// The cube of two numbers in hexadecimal: what it asks to be 1, and what to be 0.
fn cube_of(text: &str) -> Option<Cube> {
    let (yes, no) = text.trim().split_once(' ')?;
    Some(Cube {
        yes: u32::from_str_radix(yes, 16).ok()?,
        no: u32::from_str_radix(no, 16).ok()?,
    })
}

fn put_number(number: u32, found: &mut Found) {
    put_blank(found);
    found.number(number as usize)
}

/// Whether it is so.
fn put_answer(is: bool, found: &mut Found) {
    put_blank(found);
    found.text(if is { "yes" } else { "no" })
}

/// What two cubes make, if it isn't what a row says.
fn put_made(made: Cube, wanted: Cube, found: &mut Found) {
    if made != wanted {
        put_number(made.yes, found);
        put_number(made.no, found);
    }
}

/// Whether two cubes meet, the first lies in the second, and it is empty. All literals of both, and those of the first
/// alone, are put if they are not what the row says.
pub(crate) fn put_pair(text: &str, found: &mut Found) -> Option<()> {
    let mut parts = text.split('|').skip(1);
    let first = cube_of(parts.next()?)?;
    let second = cube_of(parts.next()?)?;
    let all = cube_of(parts.next()?)?;
    let alone = cube_of(parts.next()?)?;
    put_answer(first.meets(second), found);
    put_answer(first.lies_in(second), found);
    put_answer(first.is_empty(), found);
    put_made(first.union(second), all, found);
    put_made(first.without(second), alone, found);
    Some(())
}

/// The cube of a literal in decimal; whether it asks for that, and for the other level; and whether the full cube does.
pub(crate) fn put_literal(text: &str, found: &mut Found) -> Option<()> {
    let (variable, level) = text.split_once(" at ")?;
    let variable = variable.parse::<u8>().ok()?;
    if variable >= 32 {
        return None;
    }
    let level = level == "1";
    let cube = Cube::literal(variable, level);
    put_number(cube.yes, found);
    put_number(cube.no, found);
    put_answer(cube.asks(variable, level), found);
    put_answer(cube.asks(variable, !level), found);
    put_answer(Cube::full().asks(variable, level), found);
    Some(())
}

/// The cube that asks for what the bits of a number say.
fn asking(yes: u32) -> Cube {
    Cube { yes, no: 0 }
}

/// A pool of three cubes, whose outer two change places: the last, those before it, what is left after
/// the mark of one cube, and whether the room is as it should be on the way.
pub(crate) fn put_pool(alloc: Global, found: &mut Found) -> Option<()> {
    let Ok(mut pool) = CubePool::with_room(alloc, 3) else {
        return None;
    };
    let room = pool.spare();
    put_answer(pool.len() == 0 && room >= 3, found);
    pool.push(asking(1));
    let mark = pool.mark();
    pool.push(asking(2));
    pool.push(asking(4));
    pool.swap(0, 2);
    put_number(pool.cube_at(2).yes, found);
    for cube in pool.slice(Range { from: 0, to: 2 }) {
        put_number(cube.yes, found);
    }
    put_answer(pool.len() == 3 && pool.spare() + 3 == room, found);
    pool.release(mark);
    for cube in pool.slice(Range { from: 0, to: 1 }) {
        put_number(cube.yes, found);
    }
    put_answer(pool.spare() + 1 == room, found);
    Some(())
}
