//! Finding the states that runs of the right chip reach.

use crate::search::Search;
use crate::states::Way;
use crate::trial::Trial;
use crate::wiring::pins_of;
use device_logic::RowMask;
use pld_base::{OutOfMemory, Point};
use pld_device::Device;

/// How many states are known at most, and how many vectors are tried from each.
const MOST: usize = 512;

const TRIES: usize = 48;

impl<'a, D: Device> Search<'a, D> {
    /// The rows that say what the registers become.
    fn state_rows(&self) -> Result<Vec<RowMask>, OutOfMemory> {
        let mut rows = Vec::new(self.alloc);
        rows.push(self.right.wiring.reset)?;
        rows.push(self.right.wiring.preset)?;
        for cell in &self.right.wiring.cells {
            if cell.stores {
                rows.extend_from_slice(&cell.rows)?;
            }
        }
        Ok(rows)
    }

    /// The levels with another one at a pin, if they are all that a row asks.
    fn without(&mut self, outside: u32, row: RowMask) -> u32 {
        let missing = row.pins.yes & !outside | row.pins.no & outside;
        if row.is_empty() || missing != 0 {
            return outside;
        }
        outside ^ self.chance.bit_of(pins_of(row))
    }

    /// A trial with a clock: random levels, or those that one of the rows asks; seldom with a reset or a preset.
    fn clocked(&mut self, rows: &[RowMask], turn: usize) -> Trial {
        let mut outside = self.chance.word();
        if turn % 2 == 1
            && let Some(row) = rows.get(self.chance.below(rows.len()))
        {
            outside = outside & !row.pins.no | row.pins.yes;
        }
        if turn % 4 != 0 {
            outside = self.without(outside, self.right.wiring.reset);
            outside = self.without(outside, self.right.wiring.preset);
        }
        let pins = self.right.wiring.pins & !self.right.wiring.clock;
        Trial {
            outside: outside & pins | self.clock(),
            is_pulse: true,
            released: 0,
        }
    }

    /// Adds the ways from a state.
    fn add_ways(&mut self, number: usize, q: u32, rows: &[RowMask]) -> Result<(), OutOfMemory> {
        let before = Point {
            pins: self.clock(),
            q,
            nodes: 0,
        };
        for index in 0..TRIES {
            let trial = self.clocked(rows, index);
            let after = self.right.q_after(&before, &trial);
            let known = self.states.number(after);
            let to = match known {
                Some(to) => to,
                None if self.states.list.len() < MOST => self.states.add(self.alloc, after)?,
                None => continue,
            };
            let outside = trial.outside;
            self.states.add_way(number, Way { to, outside })?;
        }
        Ok(())
    }

    /// Finds the states that can be reached from here.
    pub fn explore(&mut self) -> Result<(), OutOfMemory> {
        self.states.list.clear();
        let here = self.states.add(self.alloc, self.at.low.q)?;
        if self.right.wiring.clock == 0 {
            return Ok(());
        }
        let rows = self.state_rows()?;
        for number in here..MOST {
            let Some(state) = self.states.list.get(number) else {
                return Ok(());
            };
            let q = state.q;
            self.add_ways(number, q, &rows)?;
        }
        Ok(())
    }
}
