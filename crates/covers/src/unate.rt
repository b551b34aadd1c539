//! What a cover asks, variable by variable.
//!
//! A variable is binate if some cube asks it at 1 and some cube at 0, and unate if all that ask it ask one level.

ghost use Rattle.std.specs.Prelude.{◌≡◌, ◌<◌, ◌≤◌, length};
ghost use Rattle.std.specs.Int.{bit_at};
ghost use Rattle.std.specs.List.{list_any};
ghost use Rattle.covers.specs.Cubes.{AllAskBelow, is_full};
ghost use Rattle.covers.specs.Pool.{cubes_in};
ghost use Rattle.covers.specs.Unate.{asked_of};

use crate::cube::Cube;
use crate::pool::{CubePool, Range};

/// Whether some cube asks nothing.
pub(crate) fn has_full(pool: &CubePool, cover: Range) -> bool
    requires order { cover.from ≤ cover.to }
    requires within { cover.to ≤ length pool.now.cubes }
    ensures { result ≡ list_any is_full (cubes_in pool.now cover) }
{
    pool.slice(cover)
        .iter()
        .any(|cube| cube.yes == 0 && cube.no == 0)
}

/// All literals of the cover, as one cube.
pub(crate) fn asked_literals(pool: &CubePool, cover: Range) -> Cube
    requires order { cover.from ≤ cover.to }
    requires within { cover.to ≤ length pool.now.cubes }
    ensures { result ≡ asked_of (cubes_in pool.now cover) }
{
    let mut asked = Cube::full();
    for cube in pool.slice(cover) {
        asked.yes |= cube.yes;
        asked.no |= cube.no;
    }
    asked
}

/// What a cube counts: twice for each literal that it asks less, since it then has twice the points.
fn weight(cube: Cube) -> u32 {
    let literals = cube.yes.count_ones() + cube.no.count_ones();
    4_096 >> literals.min(12)
}

/// Adds the weight at each of the variables.
fn add_weight(weights: &mut [u32; 32], variables: u32, weight: u32) {
    let mut left = variables;
    while left != 0 {
        let variable = left.trailing_zeros() as usize;
        weights[variable] = weights[variable].saturating_add(weight);
        left &= left - 1;
    }
}

/// For each variable with a bit in the mask, the weight of the cubes that ask it.
fn weights(pool: &CubePool, cover: Range, mask: u32) -> [u32; 32]
    requires order { cover.from ≤ cover.to }
    requires within { cover.to ≤ length pool.now.cubes }
{
    let mut weights = [0; 32];
    for cube in pool.slice(cover) {
        add_weight(&mut weights, (cube.yes | cube.no) & mask, weight(*cube));
    }
    weights
}

/// Of the variables with a bit in the mask, the first that the cubes of most weight ask.
pub(crate) fn most_asked(pool: &CubePool, cover: Range, mask: u32) -> u8
    requires order { cover.from ≤ cover.to }
    requires within { cover.to ≤ length pool.now.cubes }
    requires some { 0 < mask }
    ensures low { result < 32 }
    ensures in_mask { bit_at mask result ≡ 1 }
{
    let weights = weights(pool, cover, mask);
    let mut found = mask.trailing_zeros() as u8;
    for variable in 0..32u8 {
        if mask >> variable & 1 == 1 && weights[found as usize] < weights[variable as usize] {
            found = variable;
        }
    }
    found
}
