//! What a trial finds, and the best of some trials.

use crate::aiming::aim_at;
use crate::search::Search;
use crate::suspect::{Points, Suspect};
use crate::trial::Trial;
use pld_base::{OutOfMemory, Vector};
use pld_device::Device;

/// How many wrong fuses are tried at once, about.
const SAMPLE: usize = 400;

/// A trial and how many wrong fuses its vector finds, as far as they were tried.
#[derive(Clone, Copy)]
pub struct Gain {
    pub trial: Trial,
    pub found: usize,
}

impl<'a, D: Device> Search<'a, D> {
    /// Where a chip with one wrong fuse is while the right one is at these points, `is_here` if they are its own. None if that
    /// isn't known.
    fn points_of(&self, suspect: &Suspect<'a, D>, at: &Points, is_here: bool) -> Option<Points> {
        if is_here {
            Some(suspect.at)
        } else if suspect.at.low.q == self.at.low.q {
            Some(*at)
        } else {
            None
        }
    }

    /// The same.
    pub fn own_points(&self, at: &Points, suspect: &Suspect<'a, D>) -> Option<Points> {
        self.points_of(suspect, at, *at == self.at)
    }

    /// How many of the wrong fuses a vector finds, while the right chip is at these points.
    pub fn gain(&self, at: &Points, vector: &Vector) -> usize {
        let test = self.right.test(vector);
        let (low, high) = self.right.passages(at, &test);
        if !self.right.agrees(&test, &low.last, &high.last) {
            return 0;
        }
        let is_here = *at == self.at;
        let step = self.left() / SAMPLE + 1;
        let mut found = 0;
        for (index, suspect) in self.suspects.iter().enumerate() {
            if suspect.is_found || index % step != 0 {
                continue;
            }
            if let Some(own) = self.points_of(suspect, at, is_here)
                && !suspect.follows(&at.low, &own.low, &low)
                && suspect.is_shown(&own, &test)
            {
                found += 1;
            }
        }
        found
    }

    /// Whether a trial may be made: no reset comes for a moment, and there is a way back if there has to be one.
    pub fn is_allowed(&self, at: &Points, trial: &Trial, stays: bool) -> bool {
        if !self.right.is_steady(&at.low, trial) {
            return false;
        }
        if !stays || !trial.is_pulse {
            return true;
        }
        let q = self.right.q_after(&at.low, trial);
        self.states.is_home(q)
    }

    /// What a trial gains.
    pub fn gain_of(&self, at: &Points, trial: &Trial, stays: bool) -> Gain {
        let found = if self.is_allowed(at, trial, stays) {
            self.gain(at, &self.right.vector(at, trial))
        } else {
            0
        };
        Gain {
            trial: *trial,
            found,
        }
    }

    /// The numbers of the wrong fuses that aren't found and that the Qs allow to be.
    pub fn open(&self, at: &Points) -> Result<Vec<usize>, OutOfMemory> {
        let mut open = Vec::new(self.alloc);
        for (index, suspect) in self.suspects.iter().enumerate() {
            if !suspect.is_found && suspect.target.is_possible(at.low.q) {
                open.push(index)?;
            }
        }
        Ok(open)
    }

    /// A trial that aims at the wrong fuse of this number.
    pub fn aim(&mut self, at: &Points, number: usize) -> Option<Trial> {
        let target = self.suspects.get(number)?.target;
        Some(aim_at(&self.right, &mut self.chance, &target, &at.low))
    }

    /// The best of so many trials, each aimed at one of these wrong fuses, with and without a clock.
    pub fn best_of_some(
        &mut self,
        at: &Points,
        open: &[usize],
        count: usize,
        stays: bool,
    ) -> Option<Gain> {
        let mut best: Option<Gain> = None;
        for _ in 0..count {
            let number = *open.get(self.chance.below(open.len()))?;
            let first = self.aim(at, number)?;
            let second = Trial {
                is_pulse: !first.is_pulse && self.right.wiring.clock != 0,
                ..first
            };
            for trial in [first, second] {
                let gain = self.gain_of(at, &trial, stays);
                if gain.found > best.map_or(0, |best| best.found) {
                    best = Some(gain);
                }
            }
        }
        best
    }
}
