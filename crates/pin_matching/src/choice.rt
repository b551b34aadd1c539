//! The assignment that is taken: signal after signal, each has the pin that it prefers most among those with
//! which all later ones can still be placed.

ghost use Rattle.std.specs.Prelude.{◌≡◌, ℕ, ◌<◌, ◌≤◌, ◌++◌, ◌∷◌, [], IfOk, IfErr, OnOk, length};
ghost use Rattle.pin_matching.specs.Assignments.{CanPlace, IsTaken};
ghost use Rattle.pin_matching.specs.Choice.{AnswersWhether, IsBest};
ghost use Rattle.pin_matching.specs.Refusals.{IsRefusal};
ghost use Rattle.pin_matching.specs.Search.{narrowed};

use crate::fault::Unplaced;
use crate::matching::matching;
use crate::wishes::Wish;
use pld_base::OutOfMemory;
use std::alloc::Global;

/// Whether all signals can be placed if the first have these pins.
fn can_place(alloc: Global, wishes: &[Wish], fixed: &[u32]) -> Result<bool, OutOfMemory>
    requires { length fixed.now ≤ length wishes.now }
    ensures { IfOk result (AnswersWhether (narrowed wishes.now fixed.now)) }
{
    match matching(alloc, wishes, fixed) {
        Ok(_) => Ok(true),
        Err(Unplaced::NoPlacement { .. }) => Ok(false),
        Err(Unplaced::OutOfMemory) => Err(OutOfMemory),
    }
}

/// Gives the next signal the pin that it prefers most among those with which all can still be placed.
fn choose_next(alloc: Global, wishes: &[Wish], pins: &mut Vec<u32>) -> Result<(), OutOfMemory>
    requires more { length pins.old.items < length wishes.now }
    requires can { CanPlace (narrowed wishes.now pins.old.items) }
    ensures { OnOk result (IsBest wishes.now pins.old.items pins.new.items) }
{
    let signal = pins.len();
    for pin in wishes[signal].pins() {
        pins.push(*pin)?;
        if can_place(alloc, wishes, pins.as_slice())? {
            return Ok(());
        }
        pins.pop();
    }
    unreachable!()
}

/// The assignment that is taken, or why there isn't one.
pub fn first_assignment(alloc: Global, wishes: &[Wish]) -> Result<Vec<u32>, Unplaced>
    ensures taken { IfOk result (λ pins. IsTaken wishes.now pins.items) }
    ensures refused { IfErr result (IsRefusal wishes.now) }
{
    matching(alloc, wishes, &[])?;
    let mut pins = Vec::new(alloc);
    'choosing: while pins.len() < wishes.len() {
        choose_next(alloc, wishes, &mut pins)?;
    }
    Ok(pins)
}
