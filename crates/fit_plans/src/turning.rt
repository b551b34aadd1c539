//! Cubes over the pairs' columns.

ghost use Rattle.std.specs.Prelude.{◌≡◌, ◌≤◌, IfOk, vec_len, length};
ghost use Rattle.fit_plans.specs.Columns.{all_turned, turned};

use covers::Cube;
use std::alloc::{AllocError, Global};

/// The cube with its two levels exchanged at the variables of the mask.
pub fn turned(cube: Cube, mask: u32) -> Cube
    ensures { result ≡ turned mask cube }
{
    Cube {
        yes: cube.yes & !mask | cube.no & mask,
        no: cube.no & !mask | cube.yes & mask,
    }
}

/// Each cube of a list with its two levels exchanged at the variables of the mask.
pub fn all_turned(alloc: Global, cubes: &[Cube], mask: u32) -> Result<Vec<Cube>, AllocError>
    ensures { IfOk result (λ r. r.items ≡ all_turned mask cubes.now) }
{
    let mut list = Vec::new(alloc);
    for cube in cubes {
        list.push(turned(*cube, mask))?;
    }
    Ok(list)
}
