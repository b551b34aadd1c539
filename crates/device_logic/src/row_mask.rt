//! What a row asks of a point.

ghost use Rattle.std.specs.Prelude.{◌≡◌, ◌+◌, ◌*◌, ◌^◌, ◌<◌, Bool, List, false, length, true};
ghost use Rattle.device_logic.specs.Prelude.{bits, is_on, same_level, IsPoint, Levels, levels_of, has_point};
ghost use Rattle.device_logic.specs.RowMasks.{HoldsWith, holds};

use covers::Cube;
use pld_base::Point;

/// The levels that are asked of a point's pins, and of its Qs.
#[derive(Clone, Copy, Debug, PartialEq, Eq)]
pub struct RowMask {
    pub pins: Cube,
    pub q: Cube,
}

/// Two words as one, the second in the upper half.
fn joined(lower: u32, upper: u32) -> u64
    ensures words { result ≡ upper * 2 ^ 32 + lower }
    ensures lower { lower < 2 ^ 32 }
{
    u64::from(upper) << 32 | u64::from(lower)
}

/// Whether the levels are those that the cube asks.
fn has_levels(cube: Cube, levels: u32) -> bool
    ensures { result ≡ has_point cube (bits 32 levels) }
{
    // Both kinds of literals in one test: a 1 that is asked is missing if the level is 0, a 0 if it is 1.
    let asked = joined(cube.yes, cube.no);
    let missing = joined(!levels, levels);
    asked & missing == 0
}

/// Whether the literals of a cube and those in two numbers are nowhere opposite.
fn meets(cube: Cube, yes: u32, no: u32) -> bool
    ensures { result ≡ false
        → (p : List Bool) → length p ≡ 32 → has_point (record { yes = yes; no = no }) p ≡ true
        → has_point cube p ≡ true → ⊥ }
{
    let asked = Cube { yes, no };
    asked.meets(cube)
}

/// Whether the two numbers ask some level to be both 1 and 0.
fn asks_both(yes: u32, no: u32) -> bool
    ensures { result ≡ true
        → (p : List Bool) → length p ≡ 32 → has_point (record { yes = yes; no = no }) p ≡ false }
{
    let asked = Cube { yes, no };
    asked.is_empty()
}

impl RowMask {
    /// The mask that asks nothing.
    pub fn full() -> RowMask
        ensures { (at : Levels) → holds result at ≡ true }
    {
        RowMask {
            pins: Cube::full(),
            q: Cube::full(),
        }
    }

    /// A mask that holds nowhere: it asks one pin at both levels.
    pub fn never() -> RowMask
        ensures { (at : Levels) → IsPoint at → holds result at ≡ false }
    {
        RowMask {
            pins: Cube { yes: 1, no: 1 },
            q: Cube::full(),
        }
    }

    /// Whether the point has all levels that are asked.
    pub fn holds(self, at: &Point) -> bool
        ensures { result ≡ holds self (levels_of at.now) }
    {
        has_levels(self.pins, at.pins) && has_levels(self.q, at.q)
    }

    /// The mask that asks this pin's level besides.
    pub fn with_pin(self, pin: u8, level: bool) -> RowMask
        requires { pin < 32 }
        ensures { HoldsWith self result (λ at. same_level level (is_on at.pins pin)) }
    {
        let pins = self.pins.union(Cube::literal(pin, level));
        RowMask { pins, q: self.q }
    }

    /// The mask that asks this cell's Q besides.
    pub fn with_q(self, cell: u8, level: bool) -> RowMask
        requires { cell < 32 }
        ensures { HoldsWith self result (λ at. same_level level (is_on at.q cell)) }
    {
        let q = self.q.union(Cube::literal(cell, level));
        RowMask { pins: self.pins, q }
    }

    /// Whether neither asks the opposite of a level that the other asks.
    pub fn meets(self, other: RowMask) -> bool
        ensures { result ≡ false → (at : Levels) → IsPoint at
            → holds self at ≡ true → holds other at ≡ true → ⊥ }
    {
        meets(other.pins, self.pins.yes, self.pins.no) && meets(other.q, self.q.yes, self.q.no)
    }

    /// Whether some level is asked to be both 1 and 0.
    pub fn is_empty(self) -> bool
        ensures { result ≡ true → (at : Levels) → IsPoint at → holds self at ≡ false }
    {
        asks_both(self.pins.yes, self.pins.no) || asks_both(self.q.yes, self.q.no)
    }
}
