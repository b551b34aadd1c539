//! Which cells of a chip with modes a set is of.

ghost use Rattle.std.specs.Prelude.{◌≡◌, ◌≤◌, ◌&&◌, ◌||◌, ◌++◌, ◌∷◌, [], IfOk, OnOk, filter, if◌then◌else◌, map, not};
ghost use Rattle.std.specs.List.{list_any};
ghost use Rattle.pld_base.specs.Bits.{same_level};
ghost use Rattle.pld_base.specs.Models.{cell_pins, middle_pins};
ghost use Rattle.abel_tree.specs.declared.names.Declared.{Declared};
ghost use Rattle.abel_tree.specs.Entries.{Entry, view_declared};
ghost use Rattle.abel_meaning.specs.Controls.{is_on_pin};
ghost use Rattle.abel_meaning.specs.SignalPins.{is_taken};
ghost use Rattle.abel_meaning.specs.Models.{free_cells, set_of};
ghost use Rattle.pld_order.specs.Members.{has};
ghost use Rattle.model_choice.specs.Wanted.{is_wanted};

use abel_tree::Declared;
use placer::{is_on_pin, is_taken};
use pld_base::OutOfMemory;
use std::alloc::Global;

/// The signals whose cells a set is of: the registers, or all that are assigned.
#[derive(Clone, Copy)]
pub(crate) enum Wanted {
    Registers,
    Assigned,
}

/// Whether the signal is one of them.
fn is_wanted(wanted: Wanted, declared: &Declared) -> bool
    ensures { result ≡ is_wanted wanted (view_declared declared.now) }
{
    match wanted {
        Wanted::Registers => declared.is_stored(),
        Wanted::Assigned => declared.assigned,
    }
}

/// Whether it is, and is on this pin.
fn is_wanted_on(wanted: Wanted, declared: &Declared, pin: u8) -> bool
    ensures { result ≡ (is_wanted wanted (view_declared declared.now) && is_on_pin pin (view_declared declared.now).kind) }
{
    is_wanted(wanted, declared) && is_on_pin(pin, &declared.meaning)
}

/// Whether some name is one of them, and is on the pin.
fn any_wanted(names: &[Declared], wanted: Wanted, pin: u8) -> bool
    ensures { result ≡ list_any (λ (d : Declared). is_wanted wanted (view_declared d) && is_on_pin pin (view_declared d).kind) names.now }
{
    names
        .iter()
        .any(|declared| is_wanted_on(wanted, declared, pin))
}

/// Whether one of them is on the pin.
fn has_wanted(names: &[Declared], wanted: Wanted, pin: u8) -> bool
    ensures { result ≡ list_any (λ (x : Entry). is_wanted wanted x && is_on_pin pin x.kind) (map view_declared names.now) }
{
    any_wanted(names, wanted, pin)
}

/// Whether the pin is among these.
fn has_pin(pins: &[u8], pin: u8) -> bool
    ensures { result ≡ has pins.now pin }
{
    pins.iter().any(|other| pin == *other)
}

/// Whether the cell on the pin is in the set: one of them is on the pin, or it is chosen.
fn is_in_set(names: &[Declared], wanted: Wanted, chosen: &[u8], pin: u8) -> bool
    ensures { result ≡ (list_any (λ (x : Entry). is_wanted wanted x && is_on_pin pin x.kind) (map view_declared names.now) || has chosen.now pin) }
{
    has_wanted(names, wanted, pin) || has_pin(chosen, pin)
}

/// The set, from the top cell on.
pub(crate) fn set_of(top: u8, names: &[Declared], wanted: Wanted, chosen: &[u8]) -> [bool; 8]
    requires { 7 ≤ top }
    ensures { result ≡ set_of top (is_wanted wanted) (map view_declared names.now) chosen.now }
{
    [
        is_in_set(names, wanted, chosen, top),
        is_in_set(names, wanted, chosen, top - 1),
        is_in_set(names, wanted, chosen, top - 2),
        is_in_set(names, wanted, chosen, top - 3),
        is_in_set(names, wanted, chosen, top - 4),
        is_in_set(names, wanted, chosen, top - 5),
        is_in_set(names, wanted, chosen, top - 6),
        is_in_set(names, wanted, chosen, top - 7),
    ]
}

/// The pins of the cells, from the top one on.
fn cell_pins(top: u8) -> [u8; 8]
    requires { 7 ≤ top }
    ensures { result ≡ cell_pins top }
{
    [
        top,
        top - 1,
        top - 2,
        top - 3,
        top - 4,
        top - 5,
        top - 6,
        top - 7,
    ]
}

/// Adds an entry if it is wanted.
pub(crate) fn add_if<T: Drop>(
    list: &mut Vec<T>,
    entry: T,
    is_wanted: bool,
) -> Result<(), OutOfMemory>
    ensures { OnOk result (list.new.items ≡ list.old.items ++ (if is_wanted then entry ∷ [] else [])) }
{
    if is_wanted {
        list.push(entry)?;
    }
    Ok(())
}

/// Those of these pins that no number names.
fn untaken(alloc: Global, names: &[Declared], pins: &[u8]) -> Result<Vec<u8>, OutOfMemory>
    ensures { IfOk result (λ v. v.items ≡ filter (λ pin. not (is_taken (map view_declared names.now) pin)) pins.now) }
{
    let mut free = Vec::new(alloc);
    for pin in pins {
        add_if(&mut free, *pin, !is_taken(names, *pin))?;
    }
    Ok(free)
}

/// The pins of the free cells.
pub(crate) fn free_cells(alloc: Global, top: u8, names: &[Declared]) -> Result<Vec<u8>, OutOfMemory>
    requires { 7 ≤ top }
    ensures { IfOk result (λ v. v.items ≡ free_cells top (map view_declared names.now)) }
{
    let pins = cell_pins(top);
    untaken(alloc, names, &pins)
}

/// Whether the pin is one in the middle, if that is asked; else whether it isn't.
fn is_on_side(top: u8, pin: u8, is_middle: bool) -> bool
    requires { 7 ≤ top }
    ensures { result ≡ same_level is_middle (has (middle_pins top) pin) }
{
    let middle = [top - 3, top - 4];
    if is_middle {
        has_pin(&middle, pin)
    } else {
        !has_pin(&middle, pin)
    }
}

/// Those of these pins that are in the middle, or those that aren't.
pub(crate) fn middle_or_others(
    alloc: Global,
    top: u8,
    pins: &[u8],
    is_middle: bool,
) -> Result<Vec<u8>, OutOfMemory>
    requires { 7 ≤ top }
    ensures { IfOk result (λ v. v.items ≡ filter (λ pin. same_level is_middle (has (middle_pins top) pin)) pins.now) }
{
    let mut list = Vec::new(alloc);
    for pin in pins {
        add_if(&mut list, *pin, is_on_side(top, *pin, is_middle))?;
    }
    Ok(list)
}
