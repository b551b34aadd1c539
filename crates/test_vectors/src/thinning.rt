//! Fewer vectors where no cell is a register, and their order doesn't count.

use crate::chance::Chance;
use crate::right::Right;
use crate::suspect::{Points, Suspect};
use pld_base::{OutOfMemory, Vector};
use pld_device::Device;
use std::alloc::Global;

/// How many orders are tried.
const ORDERS: usize = 20;

/// For each wrong fuse that is found, the numbers of the vectors that find it.
type Finders = Vec<Vec<usize>>;

/// The numbers of the vectors that find a wrong fuse.
fn finders_of<D: Device>(
    alloc: Global,
    right: &Right<'_, D>,
    suspect: &Suspect<'_, D>,
    vectors: &[Vector],
    start: &Points,
) -> Result<Vec<usize>, OutOfMemory> {
    let mut finders = Vec::new(alloc);
    for (number, vector) in vectors.iter().enumerate() {
        if suspect.is_shown(start, &right.test(vector)) {
            finders.push(number)?;
        }
    }
    Ok(finders)
}

/// Whether another one of the vectors that are kept is among these.
fn has_other(finders: &[usize], keeps: &[bool], number: usize) -> bool {
    finders.iter().any(|other| *other != number && keeps.get(*other).copied().unwrap_or(false))
}

/// Whether some wrong fuse is found by this vector alone.
fn is_needed(finders: &[Vec<usize>], keeps: &[bool], number: usize) -> bool {
    finders.iter().any(|list| list.contains(&number) && !has_other(list, keeps, number))
}

/// Which vectors are kept if they are dropped in this order, each that isn't needed.
fn kept_in(
    alloc: Global,
    finders: &[Vec<usize>],
    order: &[usize],
) -> Result<Vec<bool>, OutOfMemory> {
    let mut keeps = vec![in alloc; true; order.len()]?;
    for number in order {
        if !is_needed(finders, &keeps, *number)
            && let Some(kept) = keeps.get_mut(*number)
        {
            *kept = false;
        }
    }
    Ok(keeps)
}

/// Exchanges each number with one before it, at random.
fn shuffle(order: &mut Vec<usize>, chance: &mut Chance) {
    for place in 1..order.len() {
        let other = chance.below(place + 1);
        order.swap(place, other);
    }
}

/// How many are kept.
fn count(keeps: &[bool]) -> usize {
    keeps.iter().filter(|kept| **kept).count()
}

/// Which vectors are kept, the fewest of some orders.
pub fn thinned(
    alloc: Global,
    finders: &[Vec<usize>],
    vectors: usize,
    chance: &mut Chance,
) -> Result<Vec<bool>, OutOfMemory> {
    let mut order: Vec<usize> = (0..vectors).collect(alloc)?;
    let mut best = vec![in alloc; true; vectors]?;
    for _ in 0..ORDERS {
        shuffle(&mut order, chance);
        let keeps = kept_in(alloc, finders, &order)?;
        if count(&keeps) < count(&best) {
            best = keeps;
        }
    }
    Ok(best)
}

/// The vectors that find each wrong fuse that some of them find.
pub fn all_finders<D: Device>(
    alloc: Global,
    right: &Right<'_, D>,
    suspects: &[Suspect<'_, D>],
    vectors: &[Vector],
    start: &Points,
) -> Result<Finders, OutOfMemory> {
    let mut finders = Vec::new(alloc);
    for suspect in suspects {
        if suspect.is_found {
            finders.push(finders_of(alloc, right, suspect, vectors, start)?)?;
        }
    }
    Ok(finders)
}
