//! The rows of a group as a cover over the column pairs, as they are true together.
//!
//! The idea: if the same cells are registers with both fuse lists, a pair carries the same with both. So
//! a row of the one is true only if some row of the other's group is, if the cover has each point of the
//! row's cube. A group has few rows, so that this is soon decided.

ghost use Rattle.std.specs.Prelude.{◌≡◌, ◌+◌, ◌*◌, ◌≤◌, ◌↔◌, IfOk, IsTrue, length};
ghost use Rattle.fuse_compare.specs.Prelude.{AllAskBelow, AsksBelow};
ghost use Rattle.covers.specs.Covers.{CoversCube};
ghost use Rattle.fuse_compare.specs.OwnRows.{InArray, IsGroupCover};

use crate::group::Group;
use crate::masked::MaskedLogic;
use covers::{Cube, CubePool, Range, covers_cube};
use device_logic::pair_count;
use pld_base::OutOfMemory;
use pld_device::{Device, Loaded};
use std::alloc::Global;

/// The rows of a group as a cover, with the room that `has_cube` works in.
pub fn group_cover<D: Device>(
    alloc: Global,
    logic: &MaskedLogic<'_, D>,
    rows: Group,
) -> Result<CubePool, OutOfMemory>
    requires { InArray D.table rows }
    ensures cover { IfOk result (λ pool. IsGroupCover D.table logic.now.fuses rows pool.cubes) }
    ensures spare { IfOk result (λ pool. 24 * length pool.cubes + 24 ≤ pool.spare) }
{
    let mut pool = CubePool::with_room(alloc, 25 * usize::from(rows.room) + 24)?;
    for row in rows.first..rows.first + u16::from(rows.room) {
        pool.push(logic.cube(row));
    }
    Ok(pool)
}

/// Whether the cover has each point of the cube. Takes no memory.
pub fn has_cube<D: Device>(device: &Loaded<D>, cover: &mut CubePool, cube: Cube) -> bool
    requires cover { AllAskBelow (length D.table.pairs) cover.old.cubes }
    requires cube { AsksBelow (length D.table.pairs) cube }
    requires spare { 24 * length cover.old.cubes + 24 ≤ cover.old.spare }
    ensures answer { IsTrue result ↔ CoversCube cover.old.cubes cube (length D.table.pairs) }
    ensures same { cover.new ≡ cover.old }
{
    let all = Range {
        from: 0,
        to: cover.len(),
    };
    covers_cube(cover, all, cube, pair_count::<D>(device))
}
