//! Where a search is: the vectors so far, and the runs of all chips.

use crate::chance::Chance;
use crate::right::Right;
use crate::states::States;
use crate::suspect::{Points, Suspect};
use crate::trial::Trial;
use pld_base::{OutOfMemory, Point, Vector};
use pld_device::Device;
use std::alloc::Global;

/// The right chip, those with one wrong fuse, where the right one is, its states, the vectors so far and how many of them
/// are of use, how many there may be, and a source of chance.
#[derive(Drop)]
pub struct Search<'a, D: Device> {
    pub alloc: Global,
    pub right: Right<'a, D>,
    pub suspects: Vec<Suspect<'a, D>>,
    pub at: Points,
    pub states: States,
    pub vectors: Vec<Vector>,
    pub useful: usize,
    pub most: usize,
    pub chance: Chance,
}

/// Where all chips were, to go back there.
#[derive(Drop)]
pub struct Place {
    at: Points,
    suspects: Vec<Points>,
    vectors: usize,
}

impl<'a, D: Device> Search<'a, D> {
    /// Whether no vector may be added, or none is needed.
    pub fn is_done(&self) -> bool {
        self.vectors.len() >= self.most || self.left() == 0
    }

    /// How many wrong fuses aren't found.
    pub fn left(&self) -> usize {
        self.suspects
            .iter()
            .filter(|suspect| !suspect.is_found)
            .count()
    }

    /// The level of the clock.
    pub fn clock(&self) -> u32 {
        self.at.low.pins & self.right.wiring.clock
    }

    /// The points of the right chip in a state, as the search would come there.
    pub fn points_in(&self, q: u32) -> Points {
        if q == self.at.low.q {
            return self.at;
        }
        let point = Point {
            pins: self.clock(),
            q,
            nodes: 0,
        };
        Points {
            low: point,
            high: point,
        }
    }

    /// Takes a vector, and runs it on all chips. Not if the right one disagrees. Answers how many wrong fuses it finds.
    pub fn take(&mut self, vector: Vector) -> Result<usize, OutOfMemory> {
        let left = self.left();
        let test = self.right.test(&vector);
        let (low, high) = self.right.passages(&self.at, &test);
        if !self.right.agrees(&test, &low.last, &high.last) {
            return Ok(0);
        }
        for suspect in self.suspects.iter_mut() {
            suspect.go(&self.at, &test, &low, &high);
        }
        self.at = Points {
            low: low.last,
            high: high.last,
        };
        self.vectors.push(vector)?;
        let found = left.saturating_sub(self.left());
        if found > 0 {
            self.useful = self.vectors.len();
        }
        Ok(found)
    }

    /// Takes the vector of a trial.
    pub fn take_trial(&mut self, trial: &Trial) -> Result<usize, OutOfMemory> {
        let vector = self.right.vector(&self.at, trial);
        self.take(vector)
    }

    /// Where all chips are.
    pub fn place(&self) -> Result<Place, OutOfMemory> {
        let suspects = self
            .suspects
            .iter()
            .map(|suspect| suspect.at)
            .collect(self.alloc)?;
        Ok(Place {
            at: self.at,
            suspects,
            vectors: self.vectors.len(),
        })
    }

    /// Goes back to where all chips were.
    pub fn go_back(&mut self, place: Place) {
        self.at = place.at;
        self.vectors.truncate(place.vectors);
        for (suspect, at) in self.suspects.iter_mut().zip(place.suspects.iter()) {
            suspect.at = *at;
        }
    }
}
