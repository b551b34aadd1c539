//! A product of literals as a set of points.

ghost use Rattle.std.specs.Prelude.{◌≡◌, ◌<◌, ◌↔◌, ◌&&◌, Bool, List, IsTrue, true, length};
ghost use Rattle.pld_base.specs.Bits.{is_on, same_level};
ghost use Rattle.covers.specs.Cubes.{AsksBelow, asks, full_cube, has_point, is_empty, lies_in, literal_cube, meets, union, without};

/// Bit v of `yes` asks variable v to be 1, bit v of `no` asks it to be 0.
#[derive(Clone, Copy, Debug, PartialEq, Eq)]
pub struct Cube {
    pub yes: u32,
    pub no: u32,
}

/// A variable at a level.
#[derive(Clone, Copy)]
pub(crate) struct Literal {
    pub(crate) variable: u8,
    pub(crate) level: bool,
}

impl Cube {
    /// The cube that asks nothing. Takes no memory.
    pub fn full() -> Cube
        ensures is { result ≡ full_cube }
        ensures points { (p : List Bool) → has_point result p ≡ true }
    {
        Cube { yes: 0, no: 0 }
    }

    /// The cube of one literal: the variable at this level. Takes no memory.
    pub fn literal(variable: u8, level: bool) -> Cube
        requires { variable < 32 }
        ensures is { result ≡ literal_cube variable level }
        ensures points { (p : List Bool) → variable < length p → has_point result p ≡ same_level level (is_on p variable) }
    {
        let bit = 1 << variable;
        if level {
            Cube { yes: bit, no: 0 }
        } else {
            Cube { yes: 0, no: bit }
        }
    }

    /// Whether the variable is asked to have this level. Takes no memory.
    pub fn asks(self, variable: u8, level: bool) -> bool
        requires { variable < 32 }
        ensures { result ≡ asks variable level self }
    {
        let asked = if level { self.yes } else { self.no };
        asked >> variable & 1 == 1
    }

    /// Whether no variable from `vars` on is asked. Takes no memory.
    pub fn asks_below(self, vars: u8) -> bool
        requires { vars < 32 }
        ensures { IsTrue result ↔ AsksBelow vars self }
    {
        self.yes >> vars == 0 && self.no >> vars == 0
    }

    /// Whether some variable is asked to be both 1 and 0. Takes no memory.
    pub fn is_empty(self) -> bool
        ensures { result ≡ is_empty self }
    {
        self.yes & self.no != 0
    }

    /// Whether all that `outer` asks is asked here too. Takes no memory.
    pub fn lies_in(self, outer: Cube) -> bool
        ensures is { result ≡ lies_in self outer }
        ensures points { IsTrue result → (p : List Bool) → has_point self p ≡ true → has_point outer p ≡ true }
    {
        self.yes & outer.yes == outer.yes && self.no & outer.no == outer.no
    }

    /// Whether no literal here is the opposite of one there. Takes no memory.
    pub fn meets(self, other: Cube) -> bool
        ensures { result ≡ meets self other }
    {
        self.yes & other.no == 0 && self.no & other.yes == 0
    }

    /// All literals of both. Takes no memory.
    pub fn union(self, other: Cube) -> Cube
        ensures is { result ≡ union self other }
        ensures points { (p : List Bool) → has_point result p ≡ (has_point self p && has_point other p) }
    {
        Cube {
            yes: self.yes | other.yes,
            no: self.no | other.no,
        }
    }

    /// The literals here that aren't among `other`'s. Takes no memory.
    pub fn without(self, other: Cube) -> Cube
        ensures { result ≡ without other self }
    {
        Cube {
            yes: self.yes & !other.yes,
            no: self.no & !other.no,
        }
    }
}
