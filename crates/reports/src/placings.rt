//! The line on signals that can't be placed.

ghost use Rattle.std.specs.Prelude.{◌≡◌, ◌++◌, Some, IsSome, IfOk, OnOk, codes};
ghost use Rattle.reports.specs.Prelude.{decimal, entries_of};
ghost use Rattle.reports.specs.DesignTold.{names_text};
ghost use Rattle.reports.specs.Placings.{first_place, placing_text};

use crate::telling::{begin_line, put_tail};
use crate::words::name_of;
use abel_tree::Names;
use pld_base::{OutOfMemory, Place, put_decimal};
use std::alloc::Global;

/// The declaration of the first of these names.
fn first_place(names: &Names, signals: &[usize]) -> Option<Place>
    ensures { result ≡ first_place (entries_of names.now) signals.now }
{
    if signals.is_empty() {
        return None;
    }
    let number = signals[0];
    let list = names.list.as_slice();
    if number < list.len() {
        Some(list[number].place)
    } else {
        None
    }
}

/// Appends the names of these signals, each after a blank.
fn put_signals(text: &mut Vec<u8>, names: &Names, signals: &[usize]) -> Result<(), OutOfMemory>
    ensures { OnOk result (text.new.items
        ≡ text.old.items ++ names_text (entries_of names.now) signals.now) }
{
    for signal in signals {
        put_tail(text, name_of(names, *signal))?;
    }
    Ok(())
}

/// Appends how many pins fit.
fn put_places(alloc: Global, text: &mut Vec<u8>, places: usize) -> Result<(), OutOfMemory>
    ensures { OnOk result (text.new.items ≡ text.old.items ++ (codes " places " ++ (decimal places ++ codes "\n"))) }
{
    text.extend_from_slice(b" places ")?;
    put_decimal(alloc, text, places)?;
    text.push(b'\n')?;
    Ok(())
}

/// `error NoPlacement at LINE:COLUMN`, the names of these signals, the first of which is declared, and `places N`.
pub fn placing_line(
    alloc: Global,
    names: &Names,
    signals: &[usize],
    places: usize,
) -> Result<Vec<u8>, OutOfMemory>
    requires { IsSome (first_place (entries_of names.now) signals.now) }
    ensures { IfOk result (λ line. placing_text (entries_of names.now) signals.now places ≡ Some line.items) }
{
    let place = first_place(names, signals).unwrap();
    let mut line = begin_line(alloc, b"NoPlacement", place)?;
    put_signals(&mut line, names, signals)?;
    put_places(alloc, &mut line, places)?;
    Ok(line)
}
