//! Rows as a range of the pool.

ghost use Rattle.std.specs.Prelude.{◌≡◌};
ghost use Rattle.std.specs.List.{list_any};
ghost use Rattle.covers.specs.Cubes.{lies_in};
ghost use Rattle.covers.specs.Pool.{LiesIn, cubes_in};

use crate::cube::Cube;
use crate::pool::{CubePool, Range};

/// Whether the cube lies in one of the rows.
pub(crate) fn has_row(pool: &CubePool, rows: Range, cube: Cube) -> bool
    requires { LiesIn pool.now rows }
    ensures { result ≡ list_any (lies_in cube) (cubes_in pool.now rows) }
{
    pool.slice(rows).iter().any(|row| cube.lies_in(*row))
}
