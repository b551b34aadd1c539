//! Names with their kinds.

ghost use Rattle.std.specs.Prelude.{◌≡◌, IfOk, map};
ghost use Rattle.declared_names.specs.Prelude.{with_assigned, is_signal, view_declared, view_meaning, view_module};
ghost use Rattle.declared_names.specs.{kind_by, kinds_by};

use crate::attributes::settled_attributes;
use crate::following::Follow;
use crate::held::{Held, are_all_held};
use crate::marks::{Mark, mark_of};
use crate::numbers::numbers_of;
use abel_tree::{Declared, Meaning};
use name_uses::ModuleParts;
use pld_base::OutOfMemory;
use pld_device::Flip;
use std::alloc::Global;

/// The names with their kinds, by what the sections assign. A signal's attributes become COM or REG, BUFFER or
/// INVERT, and DC; what was said of it before decides if it said something.
pub fn settle(
    alloc: Global,
    flip: Flip,
    names: Vec<Declared>,
    source: &ModuleParts<'_>,
) -> Result<Vec<Declared>, OutOfMemory>
    ensures { IfOk result (λ list. map view_declared list.items
        ≡ with_assigned flip (view_module source.now).sections (map view_declared names.items)) }
{
    let numbers = numbers_of(alloc, names.as_slice())?;
    let assigned = numbers.marks_by(alloc, names.as_slice(), source, Follow::Targets)?;
    let read = numbers.marks_by(alloc, names.as_slice(), source, Follow::Reads)?;
    let held = Held {
        all: are_all_held(source),
        read,
    };
    settle_all(alloc, flip, names, assigned.as_slice(), &held)
}

/// The names with their kinds, by their marks.
fn settle_all(
    alloc: Global,
    flip: Flip,
    names: Vec<Declared>,
    marks: &[Mark],
    held: &Held,
) -> Result<Vec<Declared>, OutOfMemory>
    ensures { IfOk result (λ list. map view_declared list.items
        ≡ kinds_by flip marks.now held.now names.items) }
{
    let mut settled = Vec::new(alloc);
    for (number, declared) in names.into_iter().enumerate() {
        let mark = mark_of(marks, number);
        let is_held = held.is_held(number);
        settled.push(settled_by(flip, declared, mark, is_held))?;
    }
    Ok(settled)
}

/// A name with its kind, by its mark.
fn settled_by(flip: Flip, declared: Declared, mark: Mark, held: bool) -> Declared
    ensures { view_declared result ≡ kind_by flip mark held (view_declared declared) }
{
    let mut settled = declared;
    settled.assigned = false;
    if is_signal(&settled.meaning) {
        settled.attributes = settled_attributes(flip, settled.attributes, mark, held);
        settled.assigned = mark.plain || mark.strong;
    }
    settled
}

/// Whether a name is a signal.
pub(crate) fn is_signal(meaning: &Meaning) -> bool
    ensures { result ≡ is_signal (view_meaning meaning.now) }
{
    matches!(meaning, Meaning::Pin { .. } | Meaning::Node(_))
}
