//! A vector for one wrong fuse alone.

use crate::gaining::Gain;
use crate::search::Search;
use crate::suspect::Points;
use crate::trial::Trial;
use pld_device::Device;

/// How many vectors are sought for one wrong fuse at a state, and at all states.
const TRIES: u16 = 3;

const MOST_TRIES: u16 = 60;

impl<'a, D: Device> Search<'a, D> {
    /// Whether the vector of a trial finds the wrong fuse of this number.
    fn is_hit(&self, at: &Points, trial: &Trial, number: usize) -> bool {
        let Some(suspect) = self.suspects.get(number) else {
            return false;
        };
        let Some(own) = self.own_points(at, suspect) else {
            return false;
        };
        let vector = self.right.vector(at, trial);
        let test = self.right.test(&vector);
        let (low, high) = self.right.passages(at, &test);
        self.right.agrees(&test, &low.last, &high.last) && suspect.is_shown(&own, &test)
    }

    /// Counts one more try for a wrong fuse. Answers whether there was one left.
    fn counts_try(&mut self, number: usize) -> bool {
        let Some(suspect) = self.suspects.get_mut(number) else {
            return false;
        };
        if suspect.tries >= MOST_TRIES {
            return false;
        }
        suspect.tries += 1;
        true
    }

    /// A trial that finds this wrong fuse.
    fn hit(&mut self, at: &Points, number: usize, stays: bool) -> Option<Gain> {
        for _ in 0..TRIES {
            if !self.counts_try(number) {
                return None;
            }
            let first = self.aim(at, number)?;
            let second = Trial {
                is_pulse: !first.is_pulse && self.right.wiring.clock != 0,
                ..first
            };
            for trial in [first, second] {
                if self.is_allowed(at, &trial, stays) && self.is_hit(at, &trial, number) {
                    return Some(Gain { trial, found: 1 });
                }
            }
        }
        None
    }

    /// A trial that finds one of these wrong fuses, each tried alone.
    pub fn first_hit(&mut self, at: &Points, open: &[usize], stays: bool) -> Option<Gain> {
        for number in open {
            if let Some(gain) = self.hit(at, *number, stays) {
                return Some(gain);
            }
        }
        None
    }
}
