//! Vector after vector: the best one here, or else at the nearest state where there is one.

use crate::search::Search;
use crate::states::Stop;
use crate::trial::Trial;
use pld_base::OutOfMemory;
use pld_device::Device;

/// How many vectors are sought at most, and how many trials there are for each, here and at another state.
const ROUNDS: usize = 3_000;

const HERE: usize = 24;

const THERE: usize = 6;

impl<'a, D: Device> Search<'a, D> {
    /// The levels of the vectors that lead to a stop, from the last one back.
    fn levels_to(&self, stops: &[Stop], place: usize) -> Result<Vec<u32>, OutOfMemory> {
        let mut levels = Vec::new(self.alloc);
        let mut at = place;
        for _ in 0..stops.len() {
            let Some(stop) = stops.get(at) else {
                break;
            };
            if at == 0 {
                break;
            }
            levels.push(stop.outside)?;
            at = stop.from;
        }
        Ok(levels)
    }

    /// Goes to a stop of a route.
    pub fn go_to(&mut self, stops: &[Stop], place: usize) -> Result<(), OutOfMemory> {
        let levels = self.levels_to(stops, place)?;
        for outside in levels.iter().rev() {
            self.take_trial(&Trial {
                outside: *outside,
                is_pulse: true,
                released: 0,
            })?;
        }
        Ok(())
    }

    /// Goes to a stop and takes the trial there. Answers whether wrong fuses were found; if not, all is as before.
    fn takes_at(
        &mut self,
        stops: &[Stop],
        place: usize,
        trial: &Trial,
    ) -> Result<bool, OutOfMemory> {
        let saved = self.place()?;
        let left = self.left();
        self.go_to(stops, place)?;
        self.take_trial(trial)?;
        let finds = self.left() < left;
        if finds {
            return Ok(true);
        }
        self.go_back(saved);
        Ok(false)
    }

    /// Whether a state is worth a visit.
    fn is_open(&self, number: usize, stays: bool) -> bool {
        match self.states.list.get(number) {
            Some(state) => !state.is_barren && (state.is_home || !stays),
            None => false,
        }
    }

    /// Takes a vector at a stop, if one is found that finds something.
    fn stops_at(&mut self, stops: &[Stop], place: usize, stays: bool) -> Result<bool, OutOfMemory> {
        let Some(stop) = stops.get(place) else {
            return Ok(false);
        };
        if !self.is_open(stop.state, stays) {
            return Ok(false);
        }
        let Some(q) = self.states.list.get(stop.state).map(|state| state.q) else {
            return Ok(false);
        };
        let at = self.points_in(q);
        let count = if place == 0 { HERE } else { THERE };
        if let Some(trial) = self.best(&at, count, stays)?
            && self.takes_at(stops, place, &trial)?
        {
            return Ok(true);
        }
        self.states.set_barren(stop.state);
        Ok(false)
    }

    /// The states to which there is a way from here.
    pub fn routes(&mut self) -> Result<Vec<Stop>, OutOfMemory> {
        match self.states.number(self.at.low.q) {
            Some(here) => {
                if !self.states.is_home(self.at.low.q) {
                    self.states.mark_home(here);
                }
                self.states.routes(self.alloc, here)
            }
            None => Ok(Vec::new(self.alloc)),
        }
    }

    /// Takes one more vector that finds something, and those that lead to it. Answers whether there was one.
    fn takes_next(&mut self, stays: bool) -> Result<bool, OutOfMemory> {
        let stops = self.routes()?;
        for place in 0..stops.len() {
            if self.stops_at(&stops, place, stays)? {
                return Ok(true);
            }
        }
        Ok(false)
    }

    /// Takes vectors as long as they find something: first those after which there is a way back, and others only where
    /// these find nothing.
    pub fn walk(&mut self) -> Result<(), OutOfMemory> {
        for _ in 0..ROUNDS {
            if self.is_done() {
                return Ok(());
            }
            if !self.takes_next(true)? {
                self.states.forget();
                if !self.takes_next(false)? {
                    return Ok(());
                }
            }
        }
        Ok(())
    }
}
