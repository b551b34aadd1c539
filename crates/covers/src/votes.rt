//! The order in which a cube's literals are tried.
//!
//! Each needed cube that has no row yet votes for the variables at which it is opposite to the cube, since only without
//! those literals the cube can reach it, and one that is opposite at one variable alone counts before all others. So a
//! cube grows over the neighbours that still need a row, and away from those that have one. Of the orders that were tried
//! on random functions this one was nearest to the exact minimum (README.md has the figures).
//!
//! Which needed cubes have a row is marked when a row is found, so that no vote looks at the rows again. Nothing rests on
//! the marks but the order.

ghost use Rattle.std.specs.Prelude.{◌≡◌, ◌<◌, ◌≤◌};
ghost use Rattle.std.specs.Int.{bit_at};
ghost use Rattle.covers.specs.Pool.{LiesIn};

use crate::cube::Cube;
use crate::pool::{CubePool, Range};

/// How many needed cubes have a mark; those past them count as without a row.
const MARKS: usize = 1_024;

/// The needed cubes that lie in a row, by their places from the first on.
#[derive(Drop)]
pub(crate) struct Marks {
    marks: [bool; MARKS],
}

impl Marks {
    /// No marks.
    pub(crate) fn none() -> Marks {
        Marks {
            marks: [false; MARKS],
        }
    }

    /// Whether the cube at the place has a mark.
    fn is_marked(&self, place: usize) -> bool {
        place < MARKS && self.marks[place]
    }

    /// Marks the cube at the place.
    fn mark(&mut self, place: usize) {
        if place < MARKS {
            self.marks[place] = true;
        }
    }
}

/// Marks the needed cubes from the place on that lie in the row.
pub(crate) fn mark_covered(
    marks: &mut Marks,
    pool: &CubePool,
    needed: Range,
    place: usize,
    row: Cube,
)
    requires needed { LiesIn pool.now needed }
    requires place { needed.from ≤ place }
{
    for later in place..needed.to {
        if pool.cube_at(later).lies_in(row) {
            marks.mark(later - needed.from);
        }
    }
}

/// One vote more; a neighbour's vote counts before all others.
fn voted(votes: u32, alone: bool) -> u32 {
    votes.saturating_add(if alone { 65_536 } else { 1 })
}

/// Adds the votes of a needed cube for the variables at which it is opposite to the cube.
fn add_votes(votes: &mut [u32; 32], cube: Cube, other: Cube) {
    let opposed = (cube.yes & other.no) | (cube.no & other.yes);
    let alone = opposed & opposed.wrapping_sub(1) == 0;
    let mut left = opposed;
    while left != 0 {
        let variable = left.trailing_zeros() as usize;
        votes[variable] = voted(votes[variable], alone);
        left &= left - 1;
    }
}

/// The votes of the needed cubes from the place on that have no mark.
pub(crate) fn votes(
    marks: &Marks,
    pool: &CubePool,
    needed: Range,
    place: usize,
    cube: Cube,
) -> [u32; 32]
    requires needed { LiesIn pool.now needed }
    requires place { needed.from ≤ place }
{
    let mut votes = [0; 32];
    for later in place..needed.to {
        if !marks.is_marked(later - needed.from) {
            add_votes(&mut votes, cube, pool.cube_at(later));
        }
    }
    votes
}

/// Of the variables that are left, the first with the most votes.
pub(crate) fn most_voted(votes: &[u32; 32], left: u32) -> u8
    requires { 0 < left }
    ensures low { result < 32 }
    ensures is_left { bit_at left result ≡ 1 }
{
    let mut found = left.trailing_zeros() as u8;
    for variable in 0..32u8 {
        if left >> variable & 1 == 1 && votes[found as usize] < votes[variable as usize] {
            found = variable;
        }
    }
    found
}
