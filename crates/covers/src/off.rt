//! Cubes that have no allowed point.
//!
//! The idea is espresso's: a cube with a point of an off cube is not allowed, and if the off cubes have every point that is
//! not allowed, one without is. Both are seen from the bits alone, if the allowed cover has to be split. So as many as
//! there is place for are found before any literal is tried: a point that is neither allowed nor in an off cube, made as
//! large a cube as meets no allowed one. If there isn't one left, the off cubes are complete.

ghost use Rattle.std.specs.Prelude.{◌≡◌, ◌+◌, ◌-◌, ◌*◌, ◌<◌, ◌≤◌, ◌∷◌, [], ◌++◌, false, length, not, take, true};
ghost use Rattle.std.specs.List.{list_any};
ghost use Rattle.covers.specs.Cubes.{AllAskBelow, is_empty, meets, union};
ghost use Rattle.covers.specs.Pool.{LiesIn, cubes_in};
ghost use Rattle.covers.specs.Off.{HasFound, IsOff, off_list};

use crate::covers::point_outside;
use crate::cube::Cube;
use crate::pool::{CubePool, Range};

/// How many off cubes there is place for.
const PLACES: usize = 64;

/// The first `count` of the cubes, and whether every point is in them or in the allowed cover.
#[derive(Drop)]
pub(crate) struct OffCubes {
    pub(crate) cubes: [Cube; PLACES],
    pub(crate) count: usize,
    pub(crate) complete: bool,
}

impl OffCubes {
    /// No off cubes.
    fn none() -> OffCubes
        ensures list { off_list result ≡ [] }
        ensures count { result.count ≡ 0 }
        ensures complete { result.complete ≡ false }
    {
        OffCubes {
            cubes: [Cube::full(); PLACES],
            count: 0,
            complete: false,
        }
    }

    /// One off cube more.
    fn add(&mut self, cube: Cube)
        requires { self.old.count < 64 }
        ensures list { off_list self.new ≡ off_list self.old ++ cube ∷ [] }
        ensures count { self.new.count ≡ self.old.count + 1 }
        ensures complete { self.new.complete ≡ self.old.complete }
    {
        self.cubes[self.count] = cube;
        self.count += 1;
    }

    /// Whether the cube has a point of an off cube.
    pub(crate) fn has_point_of(&self, cube: Cube) -> bool
        requires { self.now.count ≤ 64 }
        ensures { result ≡ list_any (λ d. not (is_empty (union d cube))) (off_list self.now) }
    {
        let (found, _) = self.cubes.split_at(self.count);
        found.iter().any(|off| !off.union(cube).is_empty())
    }
}

/// Whether the cube meets one of the cover.
fn meets_one(pool: &CubePool, cover: Range, cube: Cube) -> bool
    requires { LiesIn pool.now cover }
    ensures { result ≡ list_any (meets cube) (cubes_in pool.now cover) }
{
    pool.slice(cover).iter().any(|other| cube.meets(*other))
}

/// The cube without the literals of each variable without which it meets none of the cover.
fn grown(pool: &CubePool, cover: Range, cube: Cube, vars: u8) -> Cube
    requires vars { vars ≤ 22 }
    requires cover { LiesIn pool.now cover }
{
    let mut found = cube;
    for variable in 0..vars {
        let bit = 1 << variable;
        let larger = found.without(Cube { yes: bit, no: bit });
        if !meets_one(pool, cover, larger) {
            found = larger;
        }
    }
    found
}

/// The cube of one point.
fn point_cube(point: u32, vars: u8) -> Cube
    requires { vars ≤ 22 }
{
    let all = (1 << vars) - 1;
    Cube {
        yes: point & all,
        no: all & !point,
    }
}

/// Adds an off cube with a point that is neither allowed nor in one, to the list and to the pool; or the off cubes are
/// complete.
fn find_off(pool: &mut CubePool, allowed: Range, off: &mut OffCubes, vars: u8)
    requires vars { vars ≤ 22 }
    requires below { AllAskBelow vars (cubes_in pool.old allowed) }
    requires found { HasFound vars allowed off.old pool.old }
    requires incomplete { off.old.complete ≡ false }
    requires count { off.old.count < 64 }
    ensures found { HasFound vars allowed off.new pool.new }
    ensures kept { take allowed.to pool.new.cubes ≡ take allowed.to pool.old.cubes }
    ensures spare { pool.new.spare + length pool.new.cubes ≡ pool.old.spare + length pool.old.cubes }
    ensures count { off.new.count ≤ off.old.count + 1 }
{
    let all = Range {
        from: allowed.from,
        to: pool.len(),
    };
    match point_outside(pool, all, Cube::full(), vars) {
        Some(point) => {
            let cube = grown(pool, allowed, point_cube(point, vars), vars);
            if !meets_one(pool, allowed, cube) && cube.asks_below(vars) {
                pool.push(cube);
                off.add(cube);
            }
        }
        None => off.complete = true,
    }
}

/// Whether there is room to find off cubes: the allowed ones are last, and there are enough spare.
fn has_room(pool: &CubePool, allowed: Range) -> bool
    requires { LiesIn pool.now allowed }
    ensures last { result ≡ true → allowed.to ≡ length pool.now.cubes }
    ensures room { result ≡ true → 24 * (allowed.to - allowed.from) + 1632 ≤ pool.now.spare }
{
    let shares = pool.spare() / 24;
    let count = allowed.to - allowed.from;
    allowed.to == pool.len() && count < shares && 68 <= shares - count
}

/// The off cubes of the allowed cover that are found.
pub(crate) fn off_cubes(pool: &mut CubePool, allowed: Range, vars: u8) -> OffCubes
    requires vars { vars ≤ 22 }
    requires allowed { LiesIn pool.old allowed }
    requires below { AllAskBelow vars (cubes_in pool.old allowed) }
    ensures same { pool.new ≡ pool.old }
    ensures off { IsOff (cubes_in pool.old allowed) vars result }
{
    let mut off = OffCubes::none();
    if !has_room(pool, allowed) {
        return off;
    }
    let mark = pool.mark();
    for _ in 0..PLACES {
        if !off.complete {
            find_off(pool, allowed, &mut off, vars);
        }
    }
    pool.release(mark);
    off
}
