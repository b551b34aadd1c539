//! A logic by its look-ups at a point.

ghost use Rattle.std.specs.Prelude.{◌≡◌, ◌<◌, length, slice_get, Some, IsTrue};
ghost use Rattle.pld_machine.specs.Prelude.{levels_of};
ghost use Rattle.pld_machine.specs.Lookups.{Lookups, sets_node};

use pld_base::Point;

/// What settles in one turn: a cell's pin, or a node.
#[derive(Clone, Copy, PartialEq, Eq)]
pub enum Slot {
    Cell(u8),
    Node(u8),
}

/// A logic, asked about one cell or node at one point.
///
/// What `rest`, `step` and `trace` need of it as a whole is their condition, not the methods'.
pub trait Logic {
    ghost meaning: { Self → Lookups };

    /// The number of cells, which are numbered from 0.
    fn cells(&self) -> u8
        ensures { result ≡ (meaning self.now).cells };

    /// The pin of a cell.
    fn pin(&self, cell: u8) -> u8
        requires { cell < (meaning self.now).cells }
        ensures { result ≡ (meaning self.now).pin cell };

    /// Whether the cell is a register.
    fn stores(&self, cell: u8) -> bool
        requires { cell < (meaning self.now).cells }
        ensures { result ≡ (meaning self.now).stores cell };

    /// The clock's pin, 0 if there isn't one.
    fn clock(&self) -> u8
        ensures { result ≡ (meaning self.now).clock };

    /// The number of slots, which are numbered from 0.
    fn slots(&self) -> u16
        ensures { result ≡ length (meaning self.now).slots };

    /// The slot that settles at this turn.
    fn slot(&self, index: u16) -> Slot
        requires { index < length (meaning self.now).slots }
        ensures { slice_get (meaning self.now).slots index ≡ Some result };

    /// Whether the cell drives its pin.
    fn enable(&self, at: &Point, cell: u8) -> bool
        requires { cell < (meaning self.now).cells }
        ensures { result ≡ (meaning self.now).enable (levels_of at.now) cell };

    /// The level with which the cell drives its pin while it is enabled.
    fn level(&self, at: &Point, cell: u8) -> bool
        requires { cell < (meaning self.now).cells }
        ensures { result ≡ (meaning self.now).level (levels_of at.now) cell };

    /// The value of a node that has a slot.
    fn node(&self, at: &Point, node: u8) -> bool
        requires { IsTrue (sets_node (meaning self.now).slots node) }
        ensures { result ≡ (meaning self.now).node (levels_of at.now) node };

    /// Whether the cell's reset holds.
    fn reset(&self, at: &Point, cell: u8) -> bool
        requires { cell < (meaning self.now).cells }
        ensures { result ≡ (meaning self.now).reset (levels_of at.now) cell };

    /// Whether the cell's preset holds.
    fn preset(&self, at: &Point, cell: u8) -> bool
        requires { cell < (meaning self.now).cells }
        ensures { result ≡ (meaning self.now).preset (levels_of at.now) cell };

    /// The Q that the cell's data ask for at the clock's edge.
    fn next(&self, at: &Point, cell: u8) -> bool
        requires { cell < (meaning self.now).cells }
        ensures { result ≡ (meaning self.now).next (levels_of at.now) cell };
}
