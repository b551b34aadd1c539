//! Sets of vertices, a bit for each.

ghost use Rattle.std.specs.Prelude.{◌≡◌, ◌↔◌, ℕ, true, false};
ghost use Rattle.pld_base.specs.Bits.{is_on};
ghost use Rattle.pld_order.specs.Sets.{AreApart, IsWith, IsWithin};

use std::marker::Model;

/// A set of vertices, which have numbers below 256; contracts see 256 truth values, one for each.
#[derive(Drop)]
pub struct VertexSet {
    low: u128,
    high: u128,
}

impl Model for VertexSet {
    ghost use Rattle.std.specs.Prelude.{◌<◌, ◌^◌, List, Bool};
    ghost use Rattle.pld_order.specs.Sets.{members};

    ghost Value = { List Bool };

    ghost view = { λ s. members s.low s.high };

    ghost invariant = { λ s. (s.low < 2 ^ 128) × (s.high < 2 ^ 128) };
}

impl Default for VertexSet {
    ghost use Rattle.std.specs.Prelude.{◌≡◌, ℕ, false};
    ghost use Rattle.pld_base.specs.Bits.{is_on};

    ghost is_default = { λ s. (v : ℕ) → is_on s v ≡ false };

    fn default() -> VertexSet {
        VertexSet::new()
    }
}

impl VertexSet {
    /// The set of no vertex.
    pub fn new() -> VertexSet
        ensures { (v : ℕ) → is_on result v ≡ false }
    {
        VertexSet { low: 0, high: 0 }
    }

    /// Whether the vertex is in the set.
    pub fn contains(&self, vertex: u8) -> bool
        ensures { result ≡ is_on self.now vertex }
    {
        if vertex < 128 {
            self.low >> vertex & 1 == 1
        } else {
            self.high >> (vertex - 128) & 1 == 1
        }
    }

    /// Puts the vertex into the set.
    pub fn insert(&mut self, vertex: u8)
        ensures { IsWith self.old vertex self.new }
    {
        if vertex < 128 {
            self.low = pld_base::with_value(self.low, vertex, true);
        } else {
            self.high = pld_base::with_value(self.high, vertex - 128, true);
        }
    }

    /// Whether each vertex of the set is in the other.
    pub fn is_within(&self, other: &VertexSet) -> bool
        ensures { (result ≡ true) ↔ IsWithin self.now other.now }
    {
        self.low & other.low == self.low && self.high & other.high == self.high
    }

    /// Whether some vertex is in both sets.
    pub fn meets(&self, other: &VertexSet) -> bool
        ensures { (result ≡ false) ↔ AreApart self.now other.now }
    {
        self.low & other.low != 0 || self.high & other.high != 0
    }
}
