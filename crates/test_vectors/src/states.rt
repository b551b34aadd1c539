//! The states of the right chip that runs reach, and the ways between them.

use pld_base::OutOfMemory;
use std::alloc::Global;

/// A way to another state: its number, and the outside levels with which a clock leads there.
#[derive(Clone, Copy)]
pub struct Way {
    pub to: usize,
    pub outside: u32,
}

/// A state: its Qs, the ways from it, whether there is a way back to where the search is, and whether no more vector was
/// found for it.
#[derive(Drop)]
pub struct State {
    pub q: u32,
    pub ways: Vec<Way>,
    pub is_home: bool,
    pub is_barren: bool,
}

/// A state on a route, from the nearest on: its number, and the place of the state before it in the route, with the levels
/// that lead from there.
#[derive(Clone, Copy)]
pub struct Stop {
    pub state: usize,
    pub from: usize,
    pub outside: u32,
}

/// The states that are known, the first one where the search began.
#[derive(Drop)]
pub struct States {
    pub list: Vec<State>,
}

impl States {
    /// The number of the state with these Qs.
    pub fn number(&self, q: u32) -> Option<usize> {
        self.list.iter().position(|state| state.q == q)
    }

    /// Adds a state. Answers its number.
    pub fn add(&mut self, alloc: Global, q: u32) -> Result<usize, OutOfMemory> {
        let number = self.list.len();
        self.list.push(State {
            q,
            ways: Vec::new(alloc),
            is_home: false,
            is_barren: false,
        })?;
        Ok(number)
    }

    /// Adds a way, unless there is one between the two already.
    pub fn add_way(&mut self, from: usize, way: Way) -> Result<(), OutOfMemory> {
        if let Some(state) = self.list.get_mut(from)
            && !state.ways.iter().any(|other| other.to == way.to)
        {
            state.ways.push(way)?;
        }
        Ok(())
    }

    /// The ways from a state.
    fn ways(&self, from: usize) -> &[Way] {
        match self.list.get(from) {
            Some(state) => &state.ways,
            None => &[],
        }
    }

    /// The states to which there is a way, the nearest first.
    pub fn routes(&self, alloc: Global, from: usize) -> Result<Vec<Stop>, OutOfMemory> {
        let mut seen = vec![in alloc; false; self.list.len()]?;
        let mut stops = Vec::new(alloc);
        stops.push(Stop {
            state: from,
            from: 0,
            outside: 0,
        })?;
        if let Some(first) = seen.get_mut(from) {
            *first = true;
        }
        for place in 0..self.list.len() {
            let Some(stop) = stops.get(place).copied() else {
                break;
            };
            for way in self.ways(stop.state) {
                if let Some(known) = seen.get_mut(way.to)
                    && !*known
                {
                    *known = true;
                    stops.push(Stop {
                        state: way.to,
                        from: place,
                        outside: way.outside,
                    })?;
                }
            }
        }
        Ok(stops)
    }

    /// Whether a way from the state leads to a marked one.
    fn leads_home(&self, number: usize) -> bool {
        self.ways(number).iter().any(|way| match self.list.get(way.to) {
            Some(state) => state.is_home,
            None => false,
        })
    }

    /// Marks one more round of states from which a way leads to a marked one. Answers whether there were any.
    fn mark_more(&mut self) -> bool {
        let mut is_more = false;
        for number in 0..self.list.len() {
            let leads = self.leads_home(number);
            if let Some(state) = self.list.get_mut(number)
                && leads
                && !state.is_home
            {
                state.is_home = true;
                is_more = true;
            }
        }
        is_more
    }

    /// Marks the states from which there is a way to this one.
    pub fn mark_home(&mut self, home: usize) {
        for (number, state) in self.list.iter_mut().enumerate() {
            state.is_home = number == home;
        }
        for _ in 0..self.list.len() {
            if !self.mark_more() {
                return;
            }
        }
    }

    /// Whether the state with these Qs is marked so.
    pub fn is_home(&self, q: u32) -> bool {
        self.list.iter().any(|state| state.q == q && state.is_home)
    }

    /// Marks that no vector was found for a state.
    pub fn set_barren(&mut self, number: usize) {
        if let Some(state) = self.list.get_mut(number) {
            state.is_barren = true;
        }
    }

    /// Forgets these marks.
    pub fn forget(&mut self) {
        for state in self.list.iter_mut() {
            state.is_barren = false;
        }
    }
}
