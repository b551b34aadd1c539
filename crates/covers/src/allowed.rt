//! Whether a cube has allowed points alone.

ghost use Rattle.std.specs.Prelude.{◌≡◌, ◌+◌, ◌-◌, ◌*◌, ◌≤◌, ◌↔◌, IsTrue};
ghost use Rattle.covers.specs.Cubes.{AllAskBelow, AsksBelow};
ghost use Rattle.covers.specs.Covers.{CoversCube};
ghost use Rattle.covers.specs.Pool.{LiesIn, cubes_in};
ghost use Rattle.covers.specs.Off.{IsOff};

use crate::covers::covers_cube;
use crate::cube::Cube;
use crate::off::{OffCubes, off_cubes};
use crate::pool::{CubePool, Range};

/// The allowed cover, and off cubes of it.
#[derive(Drop)]
pub(crate) struct Allowed {
    pub(crate) range: Range,
    pub(crate) off: OffCubes,
}

/// The allowed cover with the off cubes that are found.
pub(crate) fn allowed_cover(pool: &mut CubePool, range: Range, vars: u8) -> Allowed
    requires vars { vars ≤ 22 }
    requires range { LiesIn pool.old range }
    requires below { AllAskBelow vars (cubes_in pool.old range) }
    ensures same { pool.new ≡ pool.old }
    ensures range { result.range ≡ range }
    ensures off { IsOff (cubes_in pool.old range) vars result.off }
{
    let off = off_cubes(pool, range, vars);
    Allowed { range, off }
}

/// Whether every point of the cube is allowed.
pub(crate) fn is_allowed(pool: &mut CubePool, allowed: &Allowed, cube: Cube, vars: u8) -> bool
    requires vars { vars ≤ 22 }
    requires allowed { LiesIn pool.old allowed.now.range }
    requires below { AllAskBelow vars (cubes_in pool.old allowed.now.range) }
    requires off { IsOff (cubes_in pool.old allowed.now.range) vars allowed.now.off }
    requires cube { AsksBelow vars cube }
    requires spare { 24 * (allowed.now.range.to - allowed.now.range.from) + 24 ≤ pool.old.spare }
    ensures answer { IsTrue result ↔ CoversCube (cubes_in pool.old allowed.now.range) cube vars }
    ensures same { pool.new ≡ pool.old }
{
    if allowed.off.has_point_of(cube) {
        return false;
    }
    if allowed.off.complete {
        return true;
    }
    covers_cube(pool, allowed.range, cube, vars)
}
