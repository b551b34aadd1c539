//! The right chip and one with a wrong fuse, side by side until a vector tells them apart.

use crate::search::Search;
use crate::suspect::Points;
use crate::trial::Trial;
use pld_base::{OutOfMemory, Vector};
use pld_device::Device;

/// How often and how far the two are followed.
const WALKS: usize = 20;

const STEPS: usize = 8;

/// Where the right chip and one with a wrong fuse are.
#[derive(Clone, Copy)]
pub struct Both {
    pub right: Points,
    pub wrong: Points,
}

impl<'a, D: Device> Search<'a, D> {
    /// Both chips a vector later, and whether it finds the wrong fuse. None if the right chip disagrees with it.
    fn both_after(&self, number: usize, both: &Both, vector: &Vector) -> Option<(Both, bool)> {
        let suspect = self.suspects.get(number)?;
        let test = self.right.test(vector);
        let (low, high) = self.right.passages(&both.right, &test);
        if !self.right.agrees(&test, &low.last, &high.last) {
            return None;
        }
        let right = Points {
            low: low.last,
            high: high.last,
        };
        let wrong = Points {
            low: suspect.chip.run(&both.wrong.low, test.low),
            high: suspect.chip.run(&both.wrong.high, test.high),
        };
        Some((Both { right, wrong }, suspect.is_shown(&both.wrong, &test)))
    }

    /// A trial with random levels.
    fn random_trial(&mut self, at: &Points) -> Trial {
        let clock = self.right.wiring.clock;
        let levels = self.chance.word() & self.right.wiring.pins & !clock;
        Trial {
            outside: levels | at.low.pins & clock,
            is_pulse: clock != 0 && self.chance.below(2) == 0,
            released: 0,
        }
    }

    /// Vectors after the first one, the last of which finds the wrong fuse: a random walk while the two chips differ.
    fn walk_of_one(
        &mut self,
        number: usize,
        start: &Both,
        first: &Vector,
    ) -> Result<Option<Vec<Vector>>, OutOfMemory> {
        let mut vectors = Vec::new(self.alloc);
        vectors.push(*first)?;
        let mut both = *start;
        for _ in 0..STEPS {
            if both.right.low.q == both.wrong.low.q {
                return Ok(None);
            }
            let trial = self.random_trial(&both.right);
            if !self.right.is_steady(&both.right.low, &trial) {
                continue;
            }
            let vector = self.right.vector(&both.right, &trial);
            let Some((next, is_found)) = self.both_after(number, &both, &vector) else {
                return Ok(None);
            };
            vectors.push(vector)?;
            if is_found {
                return Ok(Some(vectors));
            }
            both = next;
        }
        Ok(None)
    }

    /// Vectors that begin with this one, the last of which finds the wrong fuse.
    pub fn vectors_from(
        &mut self,
        number: usize,
        start: &Both,
        first: &Vector,
    ) -> Result<Option<Vec<Vector>>, OutOfMemory> {
        let Some((next, is_found)) = self.both_after(number, start, first) else {
            return Ok(None);
        };
        if is_found {
            let mut vectors = Vec::new(self.alloc);
            vectors.push(*first)?;
            return Ok(Some(vectors));
        }
        for _ in 0..WALKS {
            if let Some(vectors) = self.walk_of_one(number, &next, first)? {
                return Ok(Some(vectors));
            }
        }
        Ok(None)
    }
}
