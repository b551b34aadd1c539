//! A prime and irredundant cover between a needed and an allowed one.
//!
//! The idea is espresso's: expand each needed cube to a prime one, then leave out the rows that the others make up for; and
//! if the rows are few, reduce and expand them again and again, which may leave fewer. The contract is its checker's: the
//! rows have every needed point, and only allowed ones.

ghost use Rattle.std.specs.Prelude.{◌≡◌, ◌+◌, ◌-◌, ◌*◌, ◌≤◌, length, max};
ghost use Rattle.covers.specs.Cubes.{AllAskBelow};
ghost use Rattle.covers.specs.Covers.{CoversList};
ghost use Rattle.covers.specs.Prime.{IsPrimeIrredundant};
ghost use Rattle.covers.specs.Pool.{LiesIn, cubes_in};
ghost use Rattle.covers.specs.Appended.{Appends};

use crate::allowed::allowed_cover;
use crate::expand::push_expanded;
use crate::irredundant::leave_out;
use crate::passes::shorten;
use crate::pool::{CubePool, Range};

/// Appends a prime and irredundant list of rows that is true at every needed point and only at allowed ones, and no
/// longer than `needed`. Takes no memory.
pub fn minimise(pool: &mut CubePool, needed: Range, allowed: Range, vars: u8) -> Range
    requires vars { vars ≤ 22 }
    requires needed { LiesIn pool.old needed }
    requires allowed { LiesIn pool.old allowed }
    requires needed_below { AllAskBelow vars (cubes_in pool.old needed) }
    requires allowed_below { AllAskBelow vars (cubes_in pool.old allowed) }
    requires spare { 24 * max (needed.to - needed.from) (allowed.to - allowed.from) + (needed.to - needed.from) + 24 ≤ pool.old.spare }
    requires inside { CoversList (cubes_in pool.old allowed) (cubes_in pool.old needed) vars }
    ensures appends { Appends pool.old pool.new result }
    ensures rows { IsPrimeIrredundant (cubes_in pool.old needed) (cubes_in pool.old allowed) vars (cubes_in pool.new result) }
    ensures few { result.to - result.from ≤ needed.to - needed.from }
{
    let from = pool.len();
    let allowed = allowed_cover(pool, allowed, vars);
    push_expanded(pool, needed, &allowed, vars);
    leave_out(pool, from, needed, vars);
    shorten(pool, from, needed, &allowed, vars);
    let to = pool.len();
    Range { from, to }
}
