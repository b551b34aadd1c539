//! The right chip, and what a trial amounts to on it.

use crate::chip::{Chip, Passage};
use crate::suspect::Points;
use crate::test::{Test, test_of};
use crate::trial::Trial;
use crate::wiring::Wiring;
use device_logic::RowMask;
use pld_base::{Point, Trace, Vector};
use pld_device::Device;

/// The right chip and its wiring.
#[derive(Drop)]
pub struct Right<'a, D: Device> {
    pub chip: Chip<'a, D>,
    pub wiring: Wiring,
}

/// Whether the row could be true for a moment while the pins change one by one, though it is true neither before nor after.
fn flickers(row: RowMask, before: &Point, after: &Point) -> bool {
    let never = row.pins.yes & !before.pins & !after.pins | row.pins.no & before.pins & after.pins;
    !row.is_empty() && never == 0 && !row.holds(before) && !row.holds(after)
}

impl<'a, D: Device> Right<'a, D> {
    /// What a trial shows at its end.
    fn shown_after(&self, before: &Point, trial: &Trial) -> Trace {
        let last = self.chip.run(before, trial.drive(self.wiring.clock));
        self.chip.shown(&last)
    }

    /// The vector of a trial from these points: it tests what both of its ends show.
    pub fn vector(&self, before: &Points, trial: &Trial) -> Vector {
        let low = self.shown_after(&before.low, trial);
        let high = if before.low.q == before.high.q {
            low
        } else {
            self.shown_after(&before.high, trial)
        };
        trial.vector(self.wiring.pins, self.wiring.clock, low, high)
    }

    /// What a vector drives and tests.
    pub fn test(&self, vector: &Vector) -> Test {
        test_of(vector, self.chip.device().pins())
    }

    /// The points that a test goes through, with 0 and with 1 at the pins that it doesn't drive.
    pub fn passages(&self, at: &Points, test: &Test) -> (Passage, Passage) {
        let clock = self.wiring.clock;
        (
            self.chip.passage(&at.low, test.low, clock),
            self.chip.passage(&at.high, test.high, clock),
        )
    }

    /// Whether a test agrees with the points at which it ends.
    pub fn agrees(&self, test: &Test, low: &Point, high: &Point) -> bool {
        !test.disagrees(self.chip.shown(low)) && !test.disagrees(self.chip.shown(high))
    }

    /// Whether a trial is good while its pins change one by one: no reset comes for a moment alone.
    pub fn is_steady(&self, before: &Point, trial: &Trial) -> bool {
        if before.q == 0 {
            return true;
        }
        let after = self.chip.after(before, trial.outside);
        !flickers(self.wiring.reset, before, &after)
    }

    /// The Qs after a trial.
    pub fn q_after(&self, before: &Point, trial: &Trial) -> u32 {
        self.chip.run(before, trial.drive(self.wiring.clock)).q
    }
}
