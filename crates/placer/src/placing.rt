//! The call that places a module.

ghost use Rattle.std.specs.Prelude.{◌≡◌, ◌<◌, ◌≤◌, [], ℕ, List, All, IfOk, IfErr, length, map, get_or, take};
ghost use Rattle.placer.specs.Prelude.{entries_of, view_declared, view_module, no_name, names_of, name_refusals, IsKept};
ghost use Rattle.pin_matching.specs.Refusals.{IsRefusal};
ghost use Rattle.placer.specs.Marks.{HasMarks};
ghost use Rattle.abel_meaning.specs.Reads.{has_enable, is_read};
ghost use Rattle.placer.specs.Faults.{TellsKeptSet, IsUnplaced};
ghost use Rattle.placer.specs.Following.{AreFollowed, HasNumberedNames};
ghost use Rattle.placer.specs.Placements.{IsPlacedModule};
ghost use Rattle.placer.specs.Signals.{to_place, wish};

use crate::fault::PlaceFault;
use crate::needing::to_place;
use crate::pins::PlacedPins;
use crate::seen_in;
use crate::wishing::wishes_of;
use abel_tree::{Declared, Module, Names};
use name_uses::ModuleParts;
use pin_matching::{Unplaced, Wish, first_assignment};
use pld_base::OutOfMemory;
use pld_device::{Device, Loaded};
use std::alloc::Global;

/// The number at a place.
fn number_at(signals: &[usize], place: usize) -> usize
    ensures { result ≡ get_or signals.now place 0 }
{
    if place < signals.len() {
        signals[place]
    } else {
        0
    }
}

/// The numbers at these places.
fn numbers_at(alloc: Global, signals: &[usize], places: &[usize]) -> Result<Vec<usize>, OutOfMemory>
    ensures { IfOk result (λ v. v.items ≡ map (λ k. get_or signals.now k 0) places.now) }
{
    let mut numbers = Vec::new(alloc);
    for place in places {
        numbers.push(number_at(signals, *place))?;
    }
    Ok(numbers)
}

/// The refusal of the signals at these places.
fn refusal(
    alloc: Global,
    signals: &[usize],
    members: &[usize],
    places: usize,
) -> Result<PlaceFault, OutOfMemory>
    ensures { IfOk result (λ f. (wishes : List (List ℕ)) → IsKept wishes members.now places → TellsKeptSet signals.now wishes f) }
{
    let numbers = numbers_at(alloc, signals, members)?;
    Ok(PlaceFault::NoPlacement {
        signals: numbers,
        places,
    })
}

/// Why signals, given by their numbers, can't all be placed.
fn unplaced(alloc: Global, signals: &[usize], fault: Unplaced) -> Result<PlaceFault, OutOfMemory>
    ensures { IfOk result (λ f. (wishes : List (List ℕ)) → IsRefusal wishes fault → TellsKeptSet signals.now wishes f) }
{
    match fault {
        Unplaced::NoPlacement {
            signals: members,
            places,
        } => refusal(alloc, signals, members.as_slice(), places),
        Unplaced::OutOfMemory => Err(OutOfMemory),
    }
}

/// What signals wish for, and which of them have an enable that is assigned, bit k for the signal at place k.
#[derive(Drop)]
struct Asked {
    wishes: Vec<Wish>,
    enabled: u32,
}

/// What these signals ask for.
fn ask<D: Device>(
    alloc: Global,
    device: &Loaded<D>,
    source: &Module,
    names: &[Declared],
    signals: &[usize],
) -> Result<Asked, OutOfMemory>
    requires inside { All (λ s. s < length names.now) signals.now }
    requires few { length signals.now ≤ 32 }
    ensures wishes { IfOk result (λ a. a.wishes.items ≡ map (λ s. wish D.table (map view_declared names.now) (is_read (map view_declared names.now) (view_module source.now).sections s) (get_or (map view_declared names.now) s no_name)) signals.now) }
    ensures enabled { IfOk result (λ a. HasMarks signals.now (has_enable (map view_declared names.now) (view_module source.now).sections) a.enabled) }
{
    let parts = ModuleParts::new(alloc, source)?;
    let seen = seen_in(alloc, names, &parts, signals)?;
    let wishes = wishes_of::<D>(alloc, device, names, signals, seen.read)?;
    Ok(Asked {
        wishes,
        enabled: seen.enabled,
    })
}

/// The module with pins for these signals.
fn place_signals<D: Device>(
    alloc: Global,
    device: &Loaded<D>,
    source: Module,
    names: &[Declared],
    signals: Vec<usize>,
) -> Result<Module, PlaceFault>
    requires names { map view_declared names.now ≡ names_of D.table (view_module source) }
    requires accepted { name_refusals D.table (view_module source) ≡ [] }
    requires signals { signals.items ≡ take 32 (to_place D.table (map view_declared names.now)) }
    requires some { 0 < length signals.items }
    ensures placed { IfOk result (λ m. IsPlacedModule D.table (view_module source) (view_module m)) }
    ensures refused { IfErr result (IsUnplaced D.table (view_module source)) }
{
    let places = signals.as_slice();
    let asked = ask::<D>(alloc, device, &source, names, places)?;
    let wishes = asked.wishes.as_slice();
    match first_assignment(alloc, wishes) {
        Ok(pins) => {
            let placed = PlacedPins { signals, pins };
            let rebuilt = placed.rebuilt(alloc, names, asked.enabled, source)?;
            Ok(rebuilt)
        }
        Err(fault) => {
            let told = unplaced(alloc, places, fault)?;
            Err(told)
        }
    }
}

/// The module with a pin for each pin without a number and each buried register: itself if there aren't any. The names
/// are what `declare` answers for it.
pub fn place<D: Device>(
    alloc: Global,
    device: &Loaded<D>,
    source: Module,
    names: &Names,
) -> Result<Module, PlaceFault>
    requires names { entries_of names.now ≡ names_of D.table (view_module source) }
    requires accepted { name_refusals D.table (view_module source) ≡ [] }
    ensures placed { IfOk result (λ m. IsPlacedModule D.table (view_module source) (view_module m)) }
    ensures numbered { IfOk result (λ m. HasNumberedNames D.table (view_module m)) }
    ensures followed { IfOk result (λ m. AreFollowed D.table (view_module source) (view_module m)) }
    ensures refused { IfErr result (IsUnplaced D.table (view_module source)) }
{
    let list = names.list.as_slice();
    let signals = to_place::<D>(alloc, device, list)?;
    if signals.as_slice().is_empty() {
        return Ok(source);
    }
    place_signals::<D>(alloc, device, source, list, signals)
}
