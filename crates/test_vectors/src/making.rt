//! The whole search.

ghost use Rattle.std.specs.Prelude.{◌≡◌, ◌≤◌, IfOk, length};

use crate::beginning::{begun, start_of};
use crate::search::Search;
use crate::suspect::{Points, Suspect};
use crate::thinning::{all_finders, thinned};
use crate::trial::Trial;
use crate::wiring::pins_of;
use jedec_reader::FuseFile;
use pld_base::{OutOfMemory, Vector};
use pld_device::{Device, Loaded};
use std::alloc::Global;

impl<'a, D: Device> Search<'a, D> {
    /// Runs the vectors that are there, and forgets what they find. Answers whether the right chip agrees with all.
    fn take_own(&mut self, vectors: &[Vector]) -> Result<bool, OutOfMemory> {
        for vector in vectors {
            let before = self.vectors.len();
            self.take(*vector)?;
            if self.vectors.len() == before {
                return Ok(false);
            }
        }
        self.vectors.clear();
        self.useful = 0;
        self.suspects.retain(|suspect| !suspect.is_found);
        Ok(true)
    }

    /// Whether a wrong fuse that isn't found is in a row that the clock's level may count in.
    fn needs_clock(&self, suspect: &Suspect<'a, D>) -> bool {
        let asked = pins_of(suspect.target.loose) | pins_of(suspect.target.strict);
        !suspect.is_found && suspect.target.row.is_some() && asked & self.right.wiring.clock != 0
    }

    /// Seeks vectors from here, with the clock at its level.
    fn seek_here(&mut self) -> Result<(), OutOfMemory> {
        self.explore()?;
        self.walk()?;
        self.seek_each()
    }

    /// Seeks vectors with the clock at 1, if that can find more.
    fn seek_high(&mut self) -> Result<(), OutOfMemory> {
        if self.is_done()
            || !self
                .suspects
                .iter()
                .any(|suspect| self.needs_clock(suspect))
        {
            return Ok(());
        }
        let outside = self.at.low.pins & self.right.wiring.pins ^ self.right.wiring.clock;
        self.take_trial(&Trial {
            outside,
            is_pulse: false,
            released: 0,
        })?;
        self.seek_here()
    }

    /// The vectors that are of use.
    fn vectors_of_use(mut self, start: &Points) -> Result<Vec<Vector>, OutOfMemory> {
        let useful = self.useful;
        self.vectors.truncate(useful);
        if self.right.wiring.clock != 0 {
            return Ok(self.vectors);
        }
        let alloc = self.alloc;
        let count = self.vectors.len();
        let finders = all_finders(alloc, &self.right, &self.suspects, &self.vectors, start)?;
        let keeps = thinned(alloc, &finders, count, &mut self.chance)?;
        let mut kept = Vec::new(alloc);
        for (vector, is_kept) in self.vectors.iter().zip(keeps.iter()) {
            if *is_kept {
                kept.push(*vector)?;
            }
        }
        Ok(kept)
    }
}

/// Vectors that find wrong fuses of a file's device that the file's own vectors, which come before them, don't find: so many
/// at most. None are answered if the device isn't simulated with these fuses, or disagrees with the file's vectors.
///
/// The right device agrees with them. It isn't promised that each wrong fuse is found that some run shows. Takes memory for a
/// loaded device for each wrong fuse.
pub fn test_vectors<D: Device>(
    alloc: Global,
    device: &Loaded<D>,
    file: &FuseFile,
    most: usize,
) -> Result<Vec<Vector>, OutOfMemory>
    requires { length file.now.fuses ≡ D.table.fuses }
    ensures { IfOk result (λ vectors. length vectors.items ≤ most) }
{
    let Some(mut search) = begun(alloc, device, file, most)? else {
        return Ok(Vec::new(alloc));
    };
    let own = file.vectors.as_slice();
    if !search.take_own(own)? {
        return Ok(Vec::new(alloc));
    }
    search.seek_here()?;
    search.seek_high()?;
    let start = start_of(device, own);
    let mut vectors = search.vectors_of_use(&start)?;
    vectors.truncate(most);
    Ok(vectors)
}
