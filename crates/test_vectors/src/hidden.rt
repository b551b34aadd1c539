//! Vectors for one wrong fuse after another: what it changes may be seen only some vectors later.

use crate::following::Both;
use crate::search::Search;
use crate::states::Stop;
use crate::suspect::Points;
use pld_base::{OutOfMemory, Vector};
use pld_device::Device;

/// At how many states a wrong fuse is sought, and how often at each.
const STATES: usize = 200;

const TRIES: usize = 4;

impl<'a, D: Device> Search<'a, D> {
    /// Vectors that find the wrong fuse from a state.
    fn vectors_in(&mut self, number: usize, q: u32) -> Result<Option<Vec<Vector>>, OutOfMemory> {
        let at = self.points_in(q);
        let Some(wrong) = self.wrong_points(number, &at) else {
            return Ok(None);
        };
        let both = Both { right: at, wrong };
        for _ in 0..TRIES {
            let Some(trial) = self.aim(&at, number) else {
                return Ok(None);
            };
            if !self.right.is_steady(&at.low, &trial) {
                continue;
            }
            let first = self.right.vector(&at, &trial);
            if let Some(vectors) = self.vectors_from(number, &both, &first)? {
                return Ok(Some(vectors));
            }
        }
        Ok(None)
    }

    /// Where the chip with this wrong fuse is while the right one is at these points. None if it isn't worth a try there.
    fn wrong_points(&self, number: usize, at: &Points) -> Option<Points> {
        let suspect = self.suspects.get(number)?;
        if suspect.is_found || !suspect.target.is_possible(at.low.q) {
            return None;
        }
        self.own_points(at, suspect)
    }

    /// Goes to a stop and takes these vectors there.
    fn takes_all(
        &mut self,
        stops: &[Stop],
        place: usize,
        vectors: &[Vector],
    ) -> Result<(), OutOfMemory> {
        let saved = self.place()?;
        let left = self.left();
        self.go_to(stops, place)?;
        for vector in vectors {
            self.take(*vector)?;
        }
        if self.left() == left {
            self.go_back(saved);
        }
        Ok(())
    }

    /// Takes vectors that find one wrong fuse, if some are found.
    fn seek(&mut self, number: usize) -> Result<(), OutOfMemory> {
        let stops = self.routes()?;
        for place in 0..stops.len().min(STATES) {
            let Some(stop) = stops.get(place) else {
                return Ok(());
            };
            let Some(q) = self.states.list.get(stop.state).map(|state| state.q) else {
                return Ok(());
            };
            if let Some(vectors) = self.vectors_in(number, q)? {
                return self.takes_all(&stops, place, &vectors);
            }
        }
        Ok(())
    }

    /// Seeks vectors for each wrong fuse that isn't found.
    pub fn seek_each(&mut self) -> Result<(), OutOfMemory> {
        for number in 0..self.suspects.len() {
            if self.is_done() {
                return Ok(());
            }
            let is_found = match self.suspects.get(number) {
                Some(suspect) => suspect.is_found,
                None => true,
            };
            if !is_found {
                self.seek(number)?;
            }
        }
        Ok(())
    }
}
