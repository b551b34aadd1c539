//! A chip with one wrong fuse, and its run.

use crate::chip::{Chip, Passage};
use crate::test::Test;
use device_logic::RowMask;
use pld_base::Point;
use pld_device::Device;

/// The points of a chip with 0 and with 1 at the pins that no vector drives.
#[derive(Clone, Copy, PartialEq, Eq)]
pub struct Points {
    pub low: Point,
    pub high: Point,
}

/// What differs in a chip with one wrong fuse.
#[derive(Clone, Copy)]
pub struct Target {
    /// The row that asks something else; None if a cell has another kind or polarity.
    pub row: Option<u16>,
    /// What the row asks on the one chip.
    pub loose: RowMask,
    /// The same and more, as the row asks on the other.
    pub strict: RowMask,
    /// The cell of which it is a data row.
    pub cell: Option<usize>,
    /// The bit of the pin that it enables.
    pub enables: u32,
}

impl Target {
    /// Whether the row is true on both chips or on neither.
    pub fn is_alike(&self, at: &Point) -> bool {
        self.loose.holds(at) == self.strict.holds(at)
    }

    /// Whether the Qs allow the row to be true on one chip alone, as far as they say.
    pub fn is_possible(&self, q: u32) -> bool {
        self.row.is_none() || q & self.loose.q.yes == self.loose.q.yes && q & self.loose.q.no == 0
    }
}

/// A chip with one wrong fuse: where it is in its run, whether the vectors have found it, and how often a vector was
/// sought for it alone.
#[derive(Drop)]
pub struct Suspect<'a, D: Device> {
    pub chip: Chip<'a, D>,
    pub target: Target,
    pub at: Points,
    pub is_found: bool,
    pub tries: u16,
}

impl<'a, D: Device> Suspect<'a, D> {
    /// Whether it goes through the same points as the right chip.
    pub fn follows(&self, right: &Point, own: &Point, passage: &Passage) -> bool {
        self.target.row.is_some()
            && passage.is_whole
            && right.q == own.q
            && self.target.is_alike(&passage.first)
            && self.target.is_alike(&passage.turned)
            && self.target.is_alike(&passage.last)
    }

    /// Whether a test disagrees with it, from these points.
    pub fn is_shown(&self, own: &Points, test: &Test) -> bool {
        let low = self.chip.run(&own.low, test.low);
        if !test.disagrees(self.chip.shown(&low)) {
            return false;
        }
        let high = self.chip.run(&own.high, test.high);
        test.disagrees(self.chip.shown(&high))
    }

    /// Goes on by a vector, beside the right chip that was at `right`.
    pub fn go(&mut self, right: &Points, test: &Test, low: &Passage, high: &Passage) {
        if self.is_found {
            return;
        }
        let follows_low = self.follows(&right.low, &self.at.low, low);
        let follows_high = self.follows(&right.high, &self.at.high, high);
        let next = Points {
            low: if follows_low {
                low.last
            } else {
                self.chip.run(&self.at.low, test.low)
            },
            high: if follows_high {
                high.last
            } else {
                self.chip.run(&self.at.high, test.high)
            },
        };
        self.is_found = !follows_low
            && !follows_high
            && test.disagrees(self.chip.shown(&next.low))
            && test.disagrees(self.chip.shown(&next.high));
        self.at = next;
    }
}
