//! The search before its first vector.

ghost use Rattle.std.specs.Prelude.{◌≡◌, length};

use crate::chance::Chance;
use crate::chip::Chip;
use crate::right::Right;
use crate::search::Search;
use crate::states::States;
use crate::suspect::Points;
use crate::suspects::suspects_of;
use crate::test::test_of;
use crate::wiring::wiring_of;
use jedec_reader::FuseFile;
use pld_base::{OutOfMemory, Point, Vector};
use pld_device::{Device, Loaded};
use std::alloc::Global;

/// Where a run of these vectors starts: no register holds 1, and the clock has the level of the first vector.
pub fn start_of<D: Device>(device: &Loaded<D>, vectors: &[Vector]) -> Points {
    let (low, high) = match vectors.first() {
        Some(vector) => {
            let test = test_of(vector, device.pins());
            (test.low.outside, test.high.outside)
        }
        None => (0, 0),
    };
    Points {
        low: Point {
            pins: low,
            q: 0,
            nodes: 0,
        },
        high: Point {
            pins: high,
            q: 0,
            nodes: 0,
        },
    }
}

/// The search for a file's fuses, before its first vector. None if the device isn't simulated with them.
pub fn begun<'a, D: Device>(
    alloc: Global,
    device: &'a Loaded<D>,
    file: &FuseFile,
    most: usize,
) -> Result<Option<Search<'a, D>>, OutOfMemory>
    requires { length file.now.fuses ≡ D.table.fuses }
{
    let Some(chip) = Chip::load(alloc, device, &file.fuses)? else {
        return Ok(None);
    };
    let wiring = wiring_of(alloc, &chip)?;
    let at = start_of(device, file.vectors.as_slice());
    let suspects = suspects_of(alloc, &chip, &wiring, &file.fuses, at)?;
    Ok(Some(Search {
        alloc,
        right: Right { chip, wiring },
        suspects,
        at,
        states: States {
            list: Vec::new(alloc),
        },
        vectors: Vec::new(alloc),
        useful: 0,
        most,
        chance: Chance::new(),
    }))
}
