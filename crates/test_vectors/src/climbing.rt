//! The best trial from a state: the best of some, better still by other levels of single pins.

use crate::gaining::Gain;
use crate::search::Search;
use crate::suspect::Points;
use crate::trial::Trial;
use pld_base::OutOfMemory;
use pld_device::Device;

impl<'a, D: Device> Search<'a, D> {
    /// The best of some trials from these points, better still by single pins. None if none finds a wrong fuse.
    pub fn best(
        &mut self,
        at: &Points,
        count: usize,
        stays: bool,
    ) -> Result<Option<Trial>, OutOfMemory> {
        let open = self.open(at)?;
        let found = match self.best_of_some(at, &open, count, stays) {
            Some(gain) => Some(gain),
            None => self.first_hit(at, &open, stays),
        };
        let Some(gain) = found else {
            return Ok(None);
        };
        Ok(Some(self.climbed(at, gain, stays)?))
    }

    /// The pins whose levels may be chosen, in a random order.
    fn shuffled_pins(&mut self) -> Result<Vec<u32>, OutOfMemory> {
        let mut left = self.right.wiring.pins & !self.right.wiring.clock;
        let mut pins = Vec::new(self.alloc);
        for _ in 0..32 {
            let pin = self.chance.bit_of(left);
            if pin != 0 {
                pins.push(pin)?;
            }
            left &= !pin;
        }
        Ok(pins)
    }

    /// A trial that finds as many or more, by other levels of single pins.
    fn climbed(&mut self, at: &Points, gain: Gain, stays: bool) -> Result<Trial, OutOfMemory> {
        let mut best = gain;
        for _ in 0..2 {
            for pin in self.shuffled_pins()? {
                let turned = self.gain_of(at, &best.trial.with_turned(pin), stays);
                if turned.found >= best.found {
                    best = turned;
                }
            }
        }
        Ok(best.trial)
    }
}
