//! The lines of pins that signals were given.

ghost use Rattle.std.specs.Prelude.{◌≡◌, ◌++◌, OnOk, codes, map};
ghost use Rattle.abel_tree.specs.Entries.{view_declared, view_meaning};
ghost use Rattle.fuse_listing.specs.Listing.{given_line, given_lines, pin_line};

use crate::cells::put_numbered;
use abel_tree::{Declared, Meaning};
use declared_names::is_unnumbered;
use pld_base::OutOfMemory;
use std::alloc::Global;

/// Appends a name after a space, and ends the line.
fn put_last_name(out: &mut Vec<u8>, name: &[u8]) -> Result<(), OutOfMemory>
    ensures { OnOk result (out.new.items ≡ out.old.items ++ codes " " ++ name.now ++ codes "\n") }
{
    out.push(b' ')?;
    out.extend_from_slice(name)?;
    out.push(b'\n')?;
    Ok(())
}

/// Appends the line of a pin.
fn put_pin(
    alloc: Global,
    out: &mut Vec<u8>,
    meaning: &Meaning,
    name: &[u8],
) -> Result<(), OutOfMemory>
    ensures { OnOk result (out.new.items ≡ out.old.items ++ pin_line (view_meaning meaning.now) name.now) }
{
    match meaning {
        Meaning::Pin { pin, negated: _ } => {
            put_numbered(alloc, out, b"pin ", usize::from(*pin))?;
            put_last_name(out, name)
        }
        _ => Ok(()),
    }
}

/// Appends the line of a signal that was given its pin, and has no line of a cell.
fn put_if_given(
    alloc: Global,
    out: &mut Vec<u8>,
    declared: &Declared,
    placed: &Declared,
) -> Result<(), OutOfMemory>
    ensures { OnOk result (out.new.items ≡ out.old.items ++ given_line (view_declared declared.now) (view_declared placed.now)) }
{
    if is_unnumbered(&declared.meaning) && !declared.assigned {
        put_pin(alloc, out, &placed.meaning, placed.name.bytes())
    } else {
        Ok(())
    }
}

/// Appends the lines of all of them, in the order of their declarations.
pub(crate) fn put_given(
    alloc: Global,
    out: &mut Vec<u8>,
    declared: &[Declared],
    placed: &[Declared],
) -> Result<(), OutOfMemory>
    ensures { OnOk result (out.new.items ≡ out.old.items ++ given_lines (map view_declared declared.now) (map view_declared placed.now)) }
{
    for (place, name) in declared.iter().enumerate() {
        if place < placed.len() {
            put_if_given(alloc, out, name, &placed[place])?;
        }
    }
    Ok(())
}
